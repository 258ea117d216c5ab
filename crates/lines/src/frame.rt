// Words and lines of a text, each taken from the front of the bytes that are left.
ghost use Rattle.std.specs.Prelude.{◌≡◌, ℕ, ◌<◌, List, length, Some, None, MatchOption};
ghost use Rattle.std.specs.List.{AllByRecursion};
ghost use Rattle.lines.specs.Kinds.{first_digit, second_digit};
ghost use Rattle.lines.specs.Lines.{digit_of, Run, Word, Spaced, Words};
ghost use Rattle.lines.specs.Reading.{line};
ghost use Rattle.lines.specs.Text.{WordSized};

use crate::digits::DIGITS;
use crate::kind::Kind;

// The digit that a byte is.
fn digit(b: u8) -> Option<u32>
    ensures { MatchOption result (digit_of b ≡ 16) (λ d. (d ≡ digit_of b) × (d < 16)) }
{
    let d = DIGITS[b as usize];
    if d < 16 { Some(u32::from(d)) } else { None }
}

// The number that the first digits of `s` write, seven at most, and how many they are: one look at each byte.
fn run(s: &[u8]) -> (u32, usize)
    ensures { Run s.now result.0 result.1 }
{
    // By index: a `for` over the slice of these bytes made reading a fifth slower; a chain by `map_while` and `fold` is as fast, but leaves two goals open.
    let mut n = 0;
    for i in 0..7 {
        let Some(d) = s.get(i).and_then(|b| digit(*b)) else {
            return (n, i);
        };
        n = n * 16 + d;
    }
    (n, 7)
}

// The word at the front of `s`, and the bytes after it; None where no word is there.
fn read_word(s: &[u8]) -> Option<(u32, &[u8])>
    ensures { MatchOption result ((n : ℕ) (t : List ℕ) → Word s.now n t → ⊥) (λ p. Word s.now p.0 p.1.now) }
{
    let (n, i) = run(s);
    if i == 0 || i == 7 {
        return None;
    }
    if i > 1 && s[0] == b'0' {
        return None;
    }
    Some((n, &s[i..]))
}

// A space and then a word.
fn spaced_word(s: &[u8]) -> Option<(u32, &[u8])>
    ensures { MatchOption result ((n : ℕ) (t : List ℕ) → Spaced s.now n t → ⊥) (λ p. Spaced s.now p.0 p.1.now) }
{
    read_word(s.strip_prefix(b" ")?)
}

// As many words as `out` has places, with a space before each, and the bytes after them.
fn read_words<'a>(s: &'a [u8], out: &mut [u32]) -> Option<&'a [u8]>
    ensures { MatchOption result ((ns t : List ℕ) → length ns ≡ length out.old → Words s.now ns t → ⊥) (λ rest. Words s.now out.new rest.now) }
{
    let mut rest = s;
    for w in out.iter_mut() {
        (*w, rest) = spaced_word(rest)?;
    }
    Some(rest)
}

// A line of this kind with as many words as `out` has places, and the bytes after it; None where no such line is there.
pub(crate) fn read_line<'a>(s: &'a [u8], kind: Kind, out: &mut [u32]) -> Option<&'a [u8]>
    ensures { MatchOption result (line (first_digit kind) (second_digit kind) (length out.old) s.now ≡ None) (λ rest. (line (first_digit kind) (second_digit kind) (length out.old) s.now ≡ Some (out.new, rest.now)) × AllByRecursion WordSized out.new) }
{
    // by a slice pattern, since a line is two digits and the rest
    let [first, second, words @ ..] = s else {
        return None;
    };
    let [a, b] = kind.digits();
    if *first != a || *second != b {
        return None;
    }
    read_words(words, out)?.strip_prefix(b"\n")
}
