//! Notes that rows say, written by the table of their fields, without `client_core`.

use crate::tests::shared::{Draft, first_word, put_state, put_word};

/// Puts the bytes of a note: none for `-`; those that stand there in hexadecimal; `full` of so many states;
/// or those of so many runs, so many attempts and these states. It is of generation 0, where it doesn't say `of GENERATION`
/// first, or `old` for a note from before there were generations.
pub fn put_note(draft: &mut Draft, words: &str) {
    match first_word(words) {
        ("-", _) => {}
        ("full", count) => put_full(draft, count),
        (word, _) if word.starts_with("4643") => draft.put_hex(words),
        _ => put_fields(draft, words),
    }
}

fn put_fields(draft: &mut Draft, words: &str) {
    let (word, rest) = first_word(words);
    match word {
        "old" => {
            draft.put(b"FCC1");
            put_numbers(draft, rest);
        }
        "of" => {
            let (generation, rest) = first_word(rest);
            put_head(draft, generation);
            put_numbers(draft, rest);
        }
        _ => {
            put_head(draft, "0");
            put_numbers(draft, words);
        }
    }
}

fn put_head(draft: &mut Draft, generation: &str) {
    draft.put(b"FCC2");
    match generation.parse::<u64>() {
        Ok(generation) => draft.put_number(generation, 8),
        Err(_) => draft.give_up(),
    }
}

/// Puts what stands behind the generation: the runs, the attempts, and how many states there are, each of
/// which stands behind its length.
fn put_numbers(draft: &mut Draft, words: &str) {
    let (runs, rest) = first_word(words);
    let (attempts, states) = first_word(rest);
    draft.put_number(runs.parse::<u64>().unwrap_or(0), 8);
    draft.put_number(attempts.parse::<u64>().unwrap_or(0), 8);
    draft.put_number(states.split_whitespace().count() as u64, 4);
    for word in states.split_whitespace() {
        let length = if word.starts_with("listed") { 108 } else { 136 };
        draft.put_number(length, 4);
        put_word(draft, word);
    }
}

/// Puts the note that keeps so many states: of server 0, those of 16 jobs for each run.
fn put_full(draft: &mut Draft, count: &str) {
    let count = count.parse::<u32>().unwrap_or(0);
    put_head(draft, "0");
    draft.put_number(0, 8);
    draft.put_number(0, 8);
    draft.put_number(u64::from(count), 4);
    for index in 0..count {
        draft.put_number(136, 4);
        put_state(draft, index);
    }
}
