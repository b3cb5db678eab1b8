//! Commands that wait for their answers, each under its token.
ghost use Rattle.std.specs.Prelude.{◌≡◌, ◌↔◌, ◌≤◌, ◌++◌, ◌∷◌, [], length, slice_get, drop, IfErr, IfNone, IfOk, OnErr, OnOk, None, Some, Err, option_copied};
ghost use Rattle.link_pool.specs.Rows.{Distinct, item_at, without};
ghost use Rattle.link_pool.specs.Tokens.{tokens_in};

use crate::pool::Pool;
use indexmap::IndexMap;
use std::alloc::{AllocError, Global};
use std::marker::Model;

/// How many commands can be pending.
const MOST: usize = 1024;

/// Why a command can't be pending.
#[derive(Clone, Copy, Debug, PartialEq, Eq)]
pub enum IssueRefusal {
    /// 1,024 commands are pending.
    Full,
    /// Memory is wanting.
    NoMemory,
}

/// Up to 1,024 items, each under a token. Contracts see the list of pairs of a token and its item, in order of issue. The
/// cost of a call doesn't depend on how many there are.
#[derive(Drop)]
pub struct Pending<T> {
    pool: Pool<(u64, T)>,
    keys: IndexMap<u64, usize>,
}

impl<T> Model for Pending<T> {
    ghost use Rattle.std.specs.Prelude.{ℕ, List};

    ghost Value = { List (ℕ × T) };

    ghost use Rattle.link_pool.specs.Tokens.{tokens_in};
    ghost use Rattle.link_pool.specs.Indexed.{IsIndexed};

    ghost view = { λ p. tokens_in p.pool.lists };

    ghost invariant = { λ p. IsIndexed p.pool.lists p.keys };
}

/// Makes a list of pending commands, with none in it.
pub fn new_pending<T>(alloc: Global) -> Result<Pending<T>, AllocError>
    ensures { IfOk result (λ pending. pending ≡ []) }
{
    Ok(Pending {
        pool: Pool::new(alloc, 1)?,
        keys: IndexMap::new(alloc),
    })
}

impl<T> Pending<T> {
    /// Puts an item last under a token that isn't there. It takes all its memory before it changes anything: a refusal
    /// gives the item back and leaves all as it was. `Full` comes exactly where 1,024 are there, whatever the memory.
    pub fn issue(&mut self, token: u64, item: T) -> Result<(), (T, IssueRefusal)>
        requires { item_at token self.old ≡ None }
        ensures issued { OnOk result (self.new ≡ self.old ++ (token, item) ∷ []) }
        ensures returned { IfErr result (λ refused. refused.0 ≡ item) }
        ensures unchanged { OnErr result (self.new ≡ self.old) }
        ensures full { (length self.old ≡ 1024) ↔ (result ≡ Err (item, IssueRefusal.Full)) }
    {
        if self.keys.len() >= MOST {
            return Err((item, IssueRefusal::Full));
        }
        if self.keys.reserve(1).is_err() {
            return Err((item, IssueRefusal::NoMemory));
        }
        match self.pool.push(0, None, (token, item)) {
            Ok(key) => {
                self.keys.insert(token, key).unwrap();
                Ok(())
            }
            Err((_, item)) => Err((item, IssueRefusal::NoMemory)),
        }
    }

    /// How many are there; 1,024 at the most.
    pub fn len(&self) -> usize
        ensures value { result ≡ length self.now }
        ensures few { result ≤ 1024 }
        ensures differ { Distinct self.now }
    {
        self.keys.len()
    }

    /// The item under this token; `None` exactly where the token isn't there.
    pub fn find(&self, token: u64) -> Option<&T>
        ensures value { option_copied result ≡ item_at token self.now }
        ensures differ { Distinct self.now }
    {
        let key = *self.keys.get(&token)?;
        Some(&self.pool.item(key)?.1)
    }

    /// Takes the item under this token out; `None` exactly where the token isn't there, and then nothing changes.
    pub fn take(&mut self, token: u64) -> Option<T>
        ensures value { result ≡ item_at token self.old }
        ensures left { self.new ≡ without token self.old }
        ensures differ { Distinct self.old }
        ensures same { IfNone result (self.new ≡ self.old) }
    {
        let key = self.keys.swap_remove(&token)?;
        let (_token, item) = self.pool.unlink(key)?;
        Some(item)
    }

    /// Takes the item out that was issued first, with its token; `None` exactly where none is there.
    pub fn take_first(&mut self) -> Option<(u64, T)>
        ensures value { result ≡ slice_get self.old 0 }
        ensures left { self.new ≡ drop 1 self.old }
    {
        let key = self.pool.first(0)?;
        let (token, item) = self.pool.unlink(key)?;
        self.keys.swap_remove(&token);
        Some((token, item))
    }

    /// The pool that keeps the pairs, in order of issue in its only list.
    pub fn pool(&self) -> &Pool<(u64, T)>
        ensures tokens { tokens_in result.now.lists ≡ self.now }
        ensures alone { length result.now.lists ≡ 1 }
    {
        &self.pool
    }
}
