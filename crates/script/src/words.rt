// A line of text as the words that are still to be read.
ghost use Rattle.std.specs.Prelude.{◌≡◌, ◌≤◌, ℕ, Bool, List, [], ◌∷◌, length, Some, None};
ghost use Rattle.std.specs.List.{prefix_len};
ghost use Rattle.script.specs.Lines.{blank, uncommented, words_of, cut_at, one_of_lem};

use std::marker::Model;

// A word may hold every other byte.
fn is_blank(byte: u8) -> bool
    ensures { result ≡ blank byte }
{
    matches!(byte, b' ' | b'\t' | b'\r')
}

// How many bytes at the front pass the test.
pub fn run_length<F: Fn(u8) -> bool>(text: &[u8], passes: F) -> usize
    requires { F.IsAlwaysCallable passes }
    ensures run { (p : ℕ → Bool) → ((b : ℕ) (r : Bool) → F.post passes b r → r ≡ p b) → result ≡ prefix_len p text.now }
    ensures within { result ≤ length text.now }
{
    text.iter()
        .position(|byte| !passes(*byte))
        .unwrap_or(text.len())
}

// A line up to its comment, which begins at a '#'.
pub fn before_comment(line: &[u8]) -> &[u8]
    ensures { result.now ≡ uncommented line.now }
{
    &line[..run_length(line, |byte| byte != b'#')]
}

// What stands in front of the first such byte and what behind it, or none where there is no such byte.
pub(crate) fn cut_at(word: &[u8], sign: u8) -> Option<(&[u8], &[u8])>
    ensures { elim result [ None ↦ cut_at sign word.now ≡ None | Some p ↦ cut_at sign word.now ≡ Some (p.0.now, p.1.now) ] }
{
    let (front, [_, behind @ ..]) = word.split_at(run_length(word, |byte| byte != sign)) else {
        return None;
    };
    Some((front, behind))
}

// What the table has for a word, byte for byte the first of those that it names, or else the fault.
pub(crate) fn one_of<T: Copy, E: Copy>(word: &[u8], table: &[(&[u8], T)], fault: E) -> Result<T, E>
    ensures { result ≡ one_of_lem word.now table.now fault }
{
    match table.iter().find(|entry| word == entry.0) {
        Some(entry) => Ok(entry.1),
        None => Err(fault),
    }
}

// The words of a text, read from the left. To a contract it is the list of those that are left.
#[derive(Drop)]
pub struct Words<'a> {
    rest: &'a [u8],
}

impl<'a> Model for Words<'a> {
    ghost Value = { List (List ℕ) };

    ghost view = { λ words. words_of words.rest.now };
}

impl<'a> Words<'a> {
    pub fn new(text: &'a [u8]) -> Words<'a>
        ensures { result ≡ words_of text.now }
    {
        Words { rest: text }
    }

    // The next word, or none where only blanks are left.
    pub fn next_word(&mut self) -> Option<&'a [u8]>
        ensures { elim result [ None ↦ self.old ≡ [] | Some w ↦ self.old ≡ w.now ∷ self.new ] }
    {
        let text = &self.rest[run_length(self.rest, is_blank)..];
        let (word, rest) = text.split_at(run_length(text, |byte| !is_blank(byte)));
        if word.is_empty() {
            return None;
        }
        self.rest = rest;
        Some(word)
    }
}
