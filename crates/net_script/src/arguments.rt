//! The words behind a command's own.

ghost use Rattle.std.specs.Prelude.{◌≡◌, ℕ, ◌==◌, length, ◌-◌};
ghost use Rattle.std.specs.Option.{option_map};
ghost use Rattle.messages.specs.declared.node.Node.{Node as ANode};
ghost use Rattle.net_script.specs.declared.line.ScriptLine.{ScriptLine as ALine};
ghost use Rattle.net_script.specs.Words.{words_of};
ghost use Rattle.net_script.specs.Arguments.{read_as, leading, alone, maybe, numbers, one, two, three, four, node, node_of, place, first_sectors, sectors_of};

use crate::line::ScriptLine;
use crate::words::{is_word, number_of, split_word};
use fc_base::ServerNo;
use messages::Node;

/// The number that the first word spells, and what stands behind it.
pub(crate) fn leading_number(words: &[u8]) -> Option<(u64, &[u8])>
    ensures { option_map (λ parts. (parts.0, words_of parts.1.now)) result
        ≡ leading (words_of words.now) }
{
    let (word, rest) = split_word(words)?;
    Some((number_of(word)?, rest))
}

/// Whether no word is left.
pub(crate) fn is_end(words: &[u8]) -> bool
    ensures { result ≡ (length (words_of words.now) == 0) }
{
    split_word(words).is_none()
}

/// This line, where no word is left.
pub(crate) fn alone(line: ScriptLine, words: &[u8]) -> ScriptLine
    ensures { result ≡ alone line (words_of words.now) }
{
    if is_end(words) {
        line
    } else {
        ScriptLine::Unread
    }
}

/// Whether this word is left: it and no more, or none. `None` where others are.
pub(crate) fn maybe(name: &[u8], words: &[u8]) -> Option<bool>
    ensures { result ≡ maybe name.now (words_of words.now) }
{
    match split_word(words) {
        None => Some(false),
        Some((word, rest)) => {
            if is_word(word, name) && is_end(rest) {
                Some(true)
            } else {
                None
            }
        }
    }
}

/// One number, and no more.
pub(crate) fn one_number(words: &[u8]) -> Option<u64>
    ensures { (line : ℕ → ALine) → numbers (one line) (words_of words.now) ≡ read_as line result }
{
    let (first, rest) = leading_number(words)?;
    if is_end(rest) { Some(first) } else { None }
}

/// Two numbers, and no more.
pub(crate) fn two_numbers(words: &[u8]) -> Option<(u64, u64)>
    ensures { (line : ℕ → ℕ → ALine) → numbers (two line) (words_of words.now)
        ≡ read_as (λ n. line n.0 n.1) result }
{
    let (first, rest) = leading_number(words)?;
    Some((first, one_number(rest)?))
}

/// Three numbers, and no more.
pub(crate) fn three_numbers(words: &[u8]) -> Option<(u64, u64, u64)>
    ensures { (line : ℕ → ℕ → ℕ → ALine) → numbers (three line) (words_of words.now)
        ≡ read_as (λ n. line n.0 n.1 n.2) result }
{
    let (first, rest) = leading_number(words)?;
    let (second, third) = two_numbers(rest)?;
    Some((first, second, third))
}

/// Four numbers, and no more.
pub(crate) fn four_numbers(words: &[u8]) -> Option<(u64, u64, u64, u64)>
    ensures { (line : ℕ → ℕ → ℕ → ℕ → ALine) → numbers (four line) (words_of words.now)
        ≡ read_as (λ n. line n.0 n.1 n.2 n.3) result }
{
    let (first, rest) = leading_number(words)?;
    let (second, third, fourth) = three_numbers(rest)?;
    Some((first, second, third, fourth))
}

/// A number of a server or job. None has one of more than 32 bits: those are as the greatest.
pub(crate) fn place(number: u64) -> u32
    ensures { result ≡ place number }
{
    u32::try_from(number).unwrap_or(u32::MAX)
}

/// A node, and no more.
pub(crate) fn one_node(words: &[u8]) -> Option<Node>
    ensures { (line : ANode → ALine) → node line (words_of words.now) ≡ read_as line result }
{
    let (word, rest) = split_word(words)?;
    if is_end(rest) { node_of(word) } else { None }
}

/// The node of a word: `client`, `mirror`, or the number of a server.
fn node_of(word: &[u8]) -> Option<Node>
    ensures { result ≡ node_of word.now }
{
    if is_word(word, b"client") {
        return Some(Node::Client);
    }
    if is_word(word, b"mirror") {
        return Some(Node::Mirror);
    }
    let server = number_of(word)?;
    Some(Node::Server(ServerNo(place(server))))
}

/// The sectors that land: `all`, or `first` and how many.
pub(crate) fn sectors(words: &[u8]) -> Option<u128>
    ensures { result ≡ sectors_of (words_of words.now) }
{
    let (word, rest) = split_word(words)?;
    if is_end(rest) {
        return if is_word(word, b"all") {
            Some(u128::MAX)
        } else {
            None
        };
    }
    let (count, behind) = split_word(rest)?;
    if !is_end(behind) {
        return None;
    }
    if is_word(word, b"first") {
        number_of(count).map(first_sectors)
    } else {
        None
    }
}

/// So many sectors from the first on, all where there are fewer.
fn first_sectors(count: u64) -> u128
    ensures { result ≡ first_sectors count }
{
    if count < 128 {
        (1 << count) - 1
    } else {
        u128::MAX
    }
}
