//! The top call.
ghost use Rattle.std.specs.Prelude.{◌≡◌, ◌⊎◌, ◌∷◌, [], ℕ, None, Some};
ghost use Rattle.tcf_outside.specs.Faults.{Rose, raised};
ghost use Rattle.tcf_outside.specs.Sink.{Took};
ghost use Rattle.channel_core.specs.declared.states.Cause.{Cause};
ghost use Rattle.tcf_schedules.specs.Refusal.{BadLine};
ghost use Rattle.serving_wires.specs.Calls.{Makes};
ghost use Rattle.log_check.specs.declared.rule.Rule.{Rule};
ghost use Rattle.tcf_app.specs.declared.exit.BadPlace.{BadPlace};
ghost use Rattle.tcf_app.specs.Exit.{IsGivenUp, TellsFault};
ghost use Rattle.tcf_app.specs.Words.{agent, chain, check, client, journal, show, files_in, images_given, order_in, order_value, names_of};
ghost use Rattle.tcf_app.specs.Texts.{usage_text, file_fault_text};
ghost use Rattle.tcf_app.specs.Heard.{ReadsInOrder, FailsLast};
ghost use Rattle.tcf_app.specs.Run.{RunsBy, Runs, IsDone, AreTaken, HasEnded, HaveFailed, HasDiffered, IsBadText, IsBadStream, IsTooLong, SparesWires, AreHeeded, IsReadHeeded, IsFrontPut, IsDecided, IsOneEnd};

use crate::agent::serve_images;
use crate::chain::play_file;
use crate::client::do_script;
use crate::exit::Exit;
use crate::hub::serve_peers;
use crate::journal::{check_file, journal_file};
use crate::load::play_number;
use crate::order::{Order, read_words};
use crate::reading::{read_file, read_images};
use crate::refusing::{refuse_unread, refuse_words};
use crate::show::show_file;
use crate::value::serve_adds;
use std::alloc::Global;
use tcf_outside::{Files, Sink};
use tcf_wires::Wires;

/// Reads the schedule of this name, and plays it.
fn run_chain<F: Files, S: Sink>(alloc: Global, name: &str, files: &mut F, out: &mut S) -> Exit
    ensures runs { RunsBy (Some (chain name.now)) result (F.seen files.old) (F.seen files.new)
        (S.seen out.old) (S.seen out.new) [] }
    ensures reads { ReadsInOrder (name.now ∷ []) (F.seen files.old) (F.seen files.new) }
    ensures fault { TellsFault result (S.seen out.old) (S.seen out.new) }
{
    match read_file(files, name) {
        Ok(file) => play_file(alloc, file.as_slice(), out),
        Err(unread) => refuse_unread(alloc, 2, unread, out),
    }
}

/// Reads the stream of this name, and shows it.
fn run_show<F: Files, S: Sink>(alloc: Global, name: &str, files: &mut F, out: &mut S) -> Exit
    ensures runs { RunsBy (Some (show name.now)) result (F.seen files.old) (F.seen files.new)
        (S.seen out.old) (S.seen out.new) [] }
    ensures reads { ReadsInOrder (name.now ∷ []) (F.seen files.old) (F.seen files.new) }
    ensures fault { TellsFault result (S.seen out.old) (S.seen out.new) }
{
    match read_file(files, name) {
        Ok(file) => show_file(alloc, file.as_slice(), out),
        Err(unread) => refuse_unread(alloc, 2, unread, out),
    }
}

/// Reads the schedule of this name, and writes the journal of a chain.
fn run_journal<F: Files, S: Sink>(
    alloc: Global,
    name: &str,
    head: &str,
    files: &mut F,
    out: &mut S,
) -> Exit
    ensures runs { RunsBy (Some (journal name.now head.now)) result (F.seen files.old) (F.seen files.new)
        (S.seen out.old) (S.seen out.new) [] }
    ensures reads { ReadsInOrder (name.now ∷ []) (F.seen files.old) (F.seen files.new) }
    ensures fault { TellsFault result (S.seen out.old) (S.seen out.new) }
{
    match read_file(files, name) {
        Ok(file) => journal_file(alloc, file.as_slice(), head.as_bytes(), out),
        Err(unread) => refuse_unread(alloc, 2, unread, out),
    }
}

/// Reads the journal of this name, and judges it.
fn run_check<F: Files, S: Sink>(alloc: Global, name: &str, files: &mut F, out: &mut S) -> Exit
    ensures runs { RunsBy (Some (check name.now)) result (F.seen files.old) (F.seen files.new)
        (S.seen out.old) (S.seen out.new) [] }
    ensures reads { ReadsInOrder (name.now ∷ []) (F.seen files.old) (F.seen files.new) }
    ensures fault { TellsFault result (S.seen out.old) (S.seen out.new) }
{
    match read_file(files, name) {
        Ok(file) => check_file(alloc, file.as_slice(), out),
        Err(unread) => refuse_unread(alloc, 2, unread, out),
    }
}

/// Reads the files of the images, and serves an agent with them.
fn run_agent<F: Files, S: Sink, W: Wires>(
    alloc: Global,
    address: &str,
    turns: u32,
    words: &[String],
    files: &mut F,
    out: &mut S,
    wires: &mut W,
) -> Exit
    ensures runs { Runs (Some (agent address.now turns (images_given words.now))) result
        (F.seen files.old) (F.seen files.new)
        (W.seen wires.old) (W.seen wires.new) (S.seen out.old) (S.seen out.new) }
    ensures reads { ReadsInOrder (files_in (images_given words.now)) (F.seen files.old) (F.seen files.new) }
    ensures fault { TellsFault result (S.seen out.old) (S.seen out.new) }
{
    match read_images(alloc, words, files) {
        Ok(images) => serve_images(alloc, address, turns, images, out, wires),
        Err(unread) => refuse_unread(alloc, 4, unread, out),
    }
}

/// Reads the script of this name, and lets a client do it.
fn run_script<F: Files, S: Sink, W: Wires>(
    alloc: Global,
    address: &str,
    name: &str,
    turns: u32,
    files: &mut F,
    out: &mut S,
    wires: &mut W,
) -> Exit
    ensures runs { Runs (Some (client address.now name.now turns)) result (F.seen files.old) (F.seen files.new)
        (W.seen wires.old) (W.seen wires.new) (S.seen out.old) (S.seen out.new) }
    ensures reads { ReadsInOrder (name.now ∷ []) (F.seen files.old) (F.seen files.new) }
    ensures fault { TellsFault result (S.seen out.old) (S.seen out.new) }
{
    match read_file(files, name) {
        Ok(file) => do_script(alloc, address, file.as_slice(), turns, out, wires),
        Err(unread) => refuse_unread(alloc, 3, unread, out),
    }
}

/// Does what is ordered.
fn run_order<F: Files, S: Sink, W: Wires>(
    alloc: Global,
    order: Order<'_>,
    files: &mut F,
    out: &mut S,
    wires: &mut W,
) -> Exit
    ensures runs { Runs (Some (order_value order.entry)) result (F.seen files.old) (F.seen files.new)
        (W.seen wires.old) (W.seen wires.new) (S.seen out.old) (S.seen out.new) }
    ensures reads { ReadsInOrder (names_of (Some (order_value order.entry)))
        (F.seen files.old) (F.seen files.new) }
    ensures fault { TellsFault result (S.seen out.old) (S.seen out.new) }
{
    match order {
        Order::Chain { file } => run_chain(alloc, file, files, out),
        Order::Show { file } => run_show(alloc, file, files, out),
        Order::Load { number } => play_number(alloc, number, out),
        Order::Agent {
            address,
            turns,
            images,
        } => run_agent(alloc, address, turns, images, files, out, wires),
        Order::Value {
            address,
            peer,
            turns,
        } => serve_adds(alloc, address, peer, turns, out, wires),
        Order::Client {
            address,
            script,
            turns,
        } => run_script(alloc, address, script, turns, files, out, wires),
        Order::Hub {
            address,
            peer,
            turns,
        } => serve_peers(alloc, address, peer, turns, out, wires),
        Order::Journal { file, name } => run_journal(alloc, file, name, files, out),
        Order::Check { file } => run_check(alloc, file, files, out),
    }
}

/// Runs what the words say.
fn run_words<F: Files, S: Sink, W: Wires>(
    alloc: Global,
    words: &[String],
    files: &mut F,
    out: &mut S,
    wires: &mut W,
) -> Exit
    ensures runs { Runs (order_in words.now) result (F.seen files.old) (F.seen files.new)
        (W.seen wires.old) (W.seen wires.new) (S.seen out.old) (S.seen out.new) }
    ensures reads { ReadsInOrder (names_of (order_in words.now)) (F.seen files.old) (F.seen files.new) }
    ensures fault { TellsFault result (S.seen out.old) (S.seen out.new) }
{
    match read_words(words) {
        Some(order) => run_order(alloc, order, files, out, wires),
        None => refuse_words(out),
    }
}

/// Runs the program on these words, those after its name. The forms are:
///
/// - `chain FILE`: plays the schedule that the file says, and prints each chain's log and the history's length.
/// - `show FILE`: prints a line for each message of the stream of bytes that the file has, and `EOS` at its end. Lines
///   that stand before a bad place stay printed.
/// - `load NUMBER`: plays the schedule that the number gives, and prints a line for each chain that sums up its log, and
///   the history's length.
/// - `agent ADDRESS TURNS [NAME=FILE ..]`: listens on the address, serves an agent with these images, and prints how many
///   events it took.
/// - `value ADDRESS PEER TURNS`: listens on the address, serves a value-add for each connection, whose peer has PEER as its
///   ID and its address, and prints how many events they took.
/// - `client ADDRESS SCRIPT TURNS`: connects to the address, does the script that the file says, and prints the log.
/// - `hub ADDRESS PEER TURNS`: connects to the peer, then listens on the address, serves a hub with a lower channel for each
///   connection, and prints how many events it took.
/// - `journal FILE NAME`: plays the schedule that the file says, and prints the journal of the chain of this name: the
///   images, the inputs of the history, and the log of the chain's client.
/// - `check FILE`: prints `ok`, or the first rule that the journal breaks that the file says.
///
/// ADDRESS is the address of a socket, as `127.0.0.1:7001`, and so is a hub's PEER; a value-add's PEER is both the ID by which
/// a client's `Locator redirect` names the peer and its address. NUMBER is a decimal below 2^64, TURNS one from 1 to 1,000,000,000, both without a sign
/// or a leading zero. NAME ends at the first `=`, isn't empty and isn't given twice. A FILE, and a SCRIPT, has at most
/// 16,777,216 bytes.
///
/// Nothing is asked of the bytes that the files hold or that the wires bring: each clause holds whatever they are.
///
/// A refusal puts one last line that says why. The first of these causes that holds is answered: the words are no
/// form; a file, from the left, can't be read or is too long; a line of it or a place of its stream is bad; the wires
/// fail. A fault of the sink ends the run where it comes. Want of memory may be answered at any point.
pub fn tcf<F: Files, S: Sink, W: Wires>(
    alloc: Global,
    words: &[String],
    files: &mut F,
    out: &mut S,
    wires: &mut W,
) -> Exit
    // The run as a whole: what was heard of the files, and which calls of the wires were made, say how it ends. Of a client
    // that ran, whatever bytes came, and on each exit: in its log each command is answered once.
    ensures runs { Runs (order_in words.now) result (F.seen files.old) (F.seen files.new)
        (W.seen wires.old) (W.seen wires.new) (S.seen out.old) (S.seen out.new) }

    // What is printed: of a played schedule, whose logs are true to the history, whole or in sum; of a stream without a bad
    // place; of an agent, of value-adds and of a hub for which `Stop` came; and of a client whose script is done.
    ensures done { result ≡ Exit.Done → IsDone (order_in words.now) (F.seen files.old)
        (W.seen wires.old) (W.seen wires.new) (S.seen out.old) (S.seen out.new) }

    // How a serving command ends otherwise. A connect that fails is no wire fault of a value-add.
    ensures turns { result ≡ Exit.Turns → AreTaken (order_in words.now) (F.seen files.old)
        (W.seen wires.old) (W.seen wires.new) (S.seen out.old) (S.seen out.new) }
    ensures ended { (cause : Cause) → result ≡ Exit.Ended cause → HasEnded cause (order_in words.now)
        (F.seen files.old) (W.seen wires.old) (W.seen wires.new) (S.seen out.old) (S.seen out.new) }
    ensures wire_fault { result ≡ Exit.WireFault → Rose (W.seen wires.old).faults (W.seen wires.new).faults }
    ensures wire_fault_calls { result ≡ Exit.WireFault → HaveFailed (order_in words.now) (F.seen files.old)
        (W.seen wires.old) (W.seen wires.new) (S.seen out.old) (S.seen out.new) }

    // When each refusal comes, and what it prints.
    ensures usage { result ≡ Exit.Usage → order_in words.now ≡ None }
    ensures usage_text { result ≡ Exit.Usage → Took usage_text (S.seen out.old) (S.seen out.new) }
    ensures bad_text { (bad : BadLine) → result ≡ Exit.BadText bad.line bad.what
        → IsBadText (order_in words.now) (F.seen files.old) bad (S.seen out.old) (S.seen out.new) }
    ensures differs { (rule : Rule) → result ≡ Exit.Differs rule
        → HasDiffered rule (order_in words.now) (F.seen files.old) (S.seen out.old) (S.seen out.new) }
    ensures bad_stream { (bad : BadPlace) → result ≡ Exit.BadStream bad.offset bad.what
        → IsBadStream (order_in words.now) (F.seen files.old) bad (S.seen out.old) (S.seen out.new) }
    ensures too_long { (word : ℕ) → result ≡ Exit.TooLong word
        → IsTooLong (order_in words.now) (F.seen files.old) word (S.seen out.old) (S.seen out.new) }
    ensures file_fault { result ≡ Exit.FileFault
        → (F.seen files.new).faults ≡ raised (F.seen files.old).faults }
    ensures file_fault_last { result ≡ Exit.FileFault → FailsLast (names_of (order_in words.now))
        (F.seen files.old) (F.seen files.new) }
    ensures file_fault_text { result ≡ Exit.FileFault → Took file_fault_text (S.seen out.old) (S.seen out.new) }

    // A put that failed is always answered as such, so never as want of memory, and is counted once. A read that
    // failed is the last one, is counted once, and ends the run with the line that says so, or while that is put. A
    // call of the wires that failed ends it so too.
    ensures sink_fault { TellsFault result (S.seen out.old) (S.seen out.new) }
    ensures files_unharmed { IsReadHeeded (names_of (order_in words.now)) result
        (F.seen files.old) (F.seen files.new) (S.seen out.old) (S.seen out.new) }
    ensures wires_heeded { Makes (AreHeeded (order_in words.now) result (S.seen out.old) (S.seen out.new))
        (W.seen wires.old) (W.seen wires.new) }

    // The wires are used only where an order serves, and behind its files.
    ensures wires_spared { SparesWires (order_in words.now) result → W.seen wires.new ≡ W.seen wires.old }

    // What was put of a run that was given up: of a client that ran, a front of the text of such a log.
    ensures given_up { IsGivenUp result → IsFrontPut (order_in words.now) (F.seen files.old) (F.seen files.new)
        (W.seen wires.old) (W.seen wires.new) (S.seen out.old) (S.seen out.new) }

    // A serving command ends in one way: Stop brings it to its end, as do all turns, and a client's script and events its
    // own.
    ensures served { Makes (IsOneEnd (order_in words.now) (F.seen files.old) result)
        (W.seen wires.old) (W.seen wires.new) }

    // The files are read in the order of the words.
    ensures reads { ReadsInOrder (names_of (order_in words.now)) (F.seen files.old) (F.seen files.new) }

    // Without a fault of the files or the sink nothing but the words, the files and the calls of the wires decides, unless
    // memory is wanting.
    ensures usage_only { order_in words.now ≡ None → (result ≡ Exit.Usage) ⊎ IsGivenUp result }
    ensures complete { IsDecided (order_in words.now) result (F.seen files.old) (F.seen files.new)
        (W.seen wires.old) (W.seen wires.new) (S.seen out.old) (S.seen out.new) }
{
    run_words(alloc, words, files, out, wires)
}
