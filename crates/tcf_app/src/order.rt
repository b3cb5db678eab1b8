//! What the words after the program's name ask for.
ghost use Rattle.std.specs.Prelude.{◌≡◌, option_map, map, string_bytes};
ghost use Rattle.tcf_text.specs.Said.{long_number_of};
ghost use Rattle.tcf_app.specs.Words.{load, order_value, image_value, image_in, images_given, has_name, are_named, turns_of, last_turns, order_with, agent_by, value_by, client_by, hub_by, journal_by, serving_with, order_in};

use tcf_text::long_number;
use tcf_values::number_within;

/// A command with what its words say.
#[derive(Clone, Copy)]
pub(crate) enum Order<'a> {
    /// Plays a schedule.
    Chain {
        file: &'a str,
    },
    /// Shows the messages of a stream.
    Show {
        file: &'a str,
    },
    /// Plays the schedule that the number gives.
    Load {
        number: u64,
    },
    /// Serves an agent with the images that these words give.
    Agent {
        address: &'a str,
        turns: u32,
        images: &'a [String],
    },
    /// Serves value-adds of a peer.
    Value {
        address: &'a str,
        peer: &'a str,
        turns: u32,
    },
    /// Lets a client do a script.
    Client {
        address: &'a str,
        script: &'a str,
        turns: u32,
    },
    /// Serves a hub that connects to a peer.
    Hub {
        address: &'a str,
        peer: &'a str,
        turns: u32,
    },
    /// Plays a schedule, and writes the journal of a chain.
    Journal {
        file: &'a str,
        name: &'a str,
    },
    /// Judges a journal.
    Check {
        file: &'a str,
    },
}

/// The name of an image, and of its file.
#[derive(Clone, Copy)]
pub(crate) struct ImageWord<'a> {
    pub(crate) name: &'a str,
    pub(crate) file: &'a str,
}

/// What the word says: a name, `=` and a file. A word without `=` has no name.
pub(crate) fn image_in(word: &str) -> ImageWord<'_>
    ensures { image_value result ≡ image_in word.now }
{
    match word.split_once('=') {
        Some((name, file)) => ImageWord { name, file },
        None => ImageWord { name: "", file: "" },
    }
}

/// Whether one of the words gives this name.
fn has_name(name: &str, words: &[String]) -> bool
    ensures { result ≡ has_name name.now (images_given words.now) }
{
    for word in words {
        if image_in(word.as_str()).name == name {
            return true;
        }
    }
    false
}

/// Whether each word gives an image a name, and no name is given twice.
fn are_images(words: &[String]) -> bool
    ensures { result ≡ are_named (images_given words.now) }
{
    for (at, word) in words.iter().enumerate() {
        let name = image_in(word.as_str()).name;
        if name.is_empty() || has_name(name, &words[at + 1..]) {
            return false;
        }
    }
    true
}

/// The number of turns that the word says.
fn turns_in(word: &str) -> Option<u32>
    ensures { result ≡ turns_of word.now }
{
    number_within(word.as_bytes(), 1, 1_000_000_000)
}

/// The number of turns, where one word is left, which says it.
fn last_turns(words: &[String]) -> Option<u32>
    ensures { result ≡ last_turns (map string_bytes words.now) }
{
    match words {
        [turns] => turns_in(turns.as_str()),
        _ => None,
    }
}

/// The order to play the schedule that a number gives.
fn load_order<'a>(word: &str) -> Option<Order<'a>>
    ensures { option_map order_value result ≡ option_map load (long_number_of word.now) }
{
    let number = long_number(word.as_bytes())?;
    Some(Order::Load { number })
}

/// The order of a command with one word behind it.
#[tactic(auto, unfolding(crate::specs::Words::chain_word, crate::specs::Words::show_word, crate::specs::Words::load_word, crate::specs::Words::check_word))]
fn order_with<'a>(command: &str, word: &'a str) -> Option<Order<'a>>
    ensures { option_map order_value result ≡ order_with command.now word.now }
{
    match command {
        "chain" => Some(Order::Chain { file: word }),
        "show" => Some(Order::Show { file: word }),
        "load" => load_order(word),
        "check" => Some(Order::Check { file: word }),
        _ => None,
    }
}

/// The order to serve an agent.
fn agent_order<'a>(address: &'a str, turns: &str, images: &'a [String]) -> Option<Order<'a>>
    ensures { option_map order_value result ≡ agent_by address.now (images_given images.now) (turns_of turns.now) }
{
    let turns = turns_in(turns)?;
    if !are_images(images) {
        return None;
    }
    Some(Order::Agent {
        address,
        turns,
        images,
    })
}

/// The order to serve value-adds of a peer.
fn value_order<'a>(address: &'a str, peer: &'a str, words: &[String]) -> Option<Order<'a>>
    ensures { option_map order_value result ≡ value_by address.now peer.now (map string_bytes words.now) }
{
    let turns = last_turns(words)?;
    Some(Order::Value {
        address,
        peer,
        turns,
    })
}

/// The order to let a client do a script.
fn client_order<'a>(address: &'a str, script: &'a str, words: &[String]) -> Option<Order<'a>>
    ensures { option_map order_value result ≡ client_by address.now script.now (map string_bytes words.now) }
{
    let turns = last_turns(words)?;
    Some(Order::Client {
        address,
        script,
        turns,
    })
}

/// The order to serve a hub that connects to a peer.
fn hub_order<'a>(address: &'a str, peer: &'a str, words: &[String]) -> Option<Order<'a>>
    ensures { option_map order_value result ≡ hub_by address.now peer.now (map string_bytes words.now) }
{
    let turns = last_turns(words)?;
    Some(Order::Hub {
        address,
        peer,
        turns,
    })
}

/// The order to write the journal of a chain, where no more word is left.
fn journal_order<'a>(file: &'a str, name: &'a str, words: &[String]) -> Option<Order<'a>>
    ensures { option_map order_value result ≡ journal_by file.now name.now (map string_bytes words.now) }
{
    if words.is_empty() {
        Some(Order::Journal { file, name })
    } else {
        None
    }
}

/// The order of a command with two words and more behind it.
#[tactic(auto, unfolding(crate::specs::Words::agent_word, crate::specs::Words::value_word, crate::specs::Words::client_word, crate::specs::Words::hub_word, crate::specs::Words::journal_word))]
fn serving_with<'a>(
    command: &str,
    address: &'a str,
    word: &'a str,
    words: &'a [String],
) -> Option<Order<'a>>
    ensures { option_map order_value result ≡ serving_with command.now address.now word.now (map string_bytes words.now) }
{
    match command {
        "agent" => agent_order(address, word, words),
        "value" => value_order(address, word, words),
        "client" => client_order(address, word, words),
        "hub" => hub_order(address, word, words),
        "journal" => journal_order(address, word, words),
        _ => None,
    }
}

/// The order that the words are, if they are one.
pub(crate) fn read_words(words: &[String]) -> Option<Order<'_>>
    ensures { option_map order_value result ≡ order_in words.now }
{
    match words {
        [command, word] => order_with(command.as_str(), word.as_str()),
        [command, address, word, words @ ..] => serving_with(
            command.as_str(),
            address.as_str(),
            word.as_str(),
            words,
        ),
        _ => None,
    }
}
