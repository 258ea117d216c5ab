// Bytes, words and lines, each written into a lent buffer.
ghost use Rattle.std.specs.Prelude.{◌≡◌, ◌+◌, ◌*◌, ◌<◌, ◌≤◌, [], ◌∷◌, length};
ghost use Rattle.lines.specs.Kinds.{first_digit, second_digit};
ghost use Rattle.lines.specs.Text.{hex_byte, digits, width, word_text, words_text, line_text};
ghost use Rattle.text.specs.Put.{Room, Wrote};

use lines::kind::Kind;

// The byte of a digit below 16.
fn hex(d: u32) -> u8
    requires { d < 16 }
    ensures { result ≡ hex_byte d }
{
    if d < 10 {
        b'0' + d as u8
    } else {
        b'a' + (d as u8 - 10)
    }
}

// How many digits n needs, six at most.
pub(crate) fn needed(n: u32) -> usize
    ensures { result ≡ width n }
{
    if n < 0x10 {
        1
    } else if n < 0x100 {
        2
    } else if n < 0x1000 {
        3
    } else if n < 0x1_0000 {
        4
    } else if n < 0x10_0000 {
        5
    } else {
        6
    }
}

// How many bytes words have, with a space before each.
pub(crate) fn words_size(words: &[u32]) -> usize
    requires { length words.now ≤ 4294967296 }
    ensures is { result ≡ length (words_text words.now) }
    ensures bound { result ≤ 7 * length words.now }
{
    words.iter().map(|w| 1 + needed(*w)).sum()
}

// A lent buffer, and the place from which on the next bytes are written. Not std's traits for writers: each byte would be a Result to unwrap, though there is room for all.
#[derive(Drop)]
pub(crate) struct Writer<'a> {
    pub(crate) out: &'a mut [u8],
    pub(crate) at: usize,
}

impl Writer<'_> {
    fn put_byte(&mut self, b: u8)
        requires { Room self.old 1 }
        ensures { Wrote self.old (b ∷ []) self.new }
    {
        self.out[self.at] = b;
        self.at += 1;
    }

    // Writes n as `count` digits.
    fn put_digits(&mut self, n: u32, count: usize)
        requires { Room self.old count }
        ensures { Wrote self.old (digits count n) self.new }
    {
        let end = self.at + count;
        // From the last digit, which comes first. By index: after `iter_mut().rev()` a proof knows nothing of the bytes.
        let mut left = n;
        for place in (self.at..end).rev() {
            self.out[place] = hex(left % 16);
            left /= 16;
        }
        self.at = end;
    }

    // Writes a space and a word.
    fn put_word(&mut self, n: u32)
        requires { Room self.old (1 + width n) }
        ensures { Wrote self.old (32 ∷ word_text n) self.new }
    {
        self.put_byte(b' ');
        self.put_digits(n, needed(n));
    }

    // Writes words with a space before each.
    fn put_words(&mut self, words: &[u32])
        requires { Room self.old (length (words_text words.now)) }
        ensures { Wrote self.old (words_text words.now) self.new }
    {
        for w in words {
            self.put_word(*w);
        }
    }

    pub(crate) fn put_line(&mut self, kind: Kind, words: &[u32])
        requires { Room self.old (length (line_text (first_digit kind) (second_digit kind) words.now)) }
        ensures { Wrote self.old (line_text (first_digit kind) (second_digit kind) words.now) self.new }
    {
        let [first, second] = kind.digits();
        self.put_byte(first);
        self.put_byte(second);
        self.put_words(words);
        self.put_byte(b'\n');
    }
}
