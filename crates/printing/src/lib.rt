// Words and numbers put as bytes into a lent buffer, one after the other. It uses `itoa` for the digits. Its promises cite specs/Printing.antt and
// specs/Printer.antt. No `write!`: std promises what that has put only where it answers `Ok`, and never that it does.
#![tactic(auto)]

ghost use Rattle.std.specs.Prelude.{◌≡◌, ◌++◌, ◌+◌, ◌≤◌, ◌%◌, leb, length};
ghost use Rattle.printing.specs.Printing.{decimal, DigitsSuffice, signed, two_digits, hundredths};
ghost use Rattle.printing.specs.Printer.{Prints};

use itoa::Buffer;

// A lent buffer, and the place in it that is printed to next. It is made by its literal, which a `new` would have to promise field by field.
#[derive(Drop)]
pub struct Printer<'a> {
    pub out: &'a mut [u8],
    pub at: usize,
}

impl Printer<'_> {
    // Whether `count` bytes have room.
    #[inline(always)]
    fn has_room(&self, count: usize) -> bool
        ensures { result ≡ leb (self.now.at + count) (length self.now.out.now) }
    {
        self.at <= self.out.len() && count <= self.out.len() - self.at
    }

    // The bytes from the place on; nothing is put where they do not fit.
    #[inline(always)]
    pub fn put_bytes(&mut self, bytes: &[u8])
        ensures { Prints self.old bytes.now self.new }
    {
        if self.has_room(bytes.len()) {
            // std's `copy_from_slice` calls memmove, and C's head.h names memcpy and memset alone; a `zip` gives the proof lengths only.
            let end = self.at + bytes.len();
            let part = &mut self.out[self.at..end];
            for (i, byte) in bytes.iter().enumerate() {
                part[i] = *byte;
            }
            self.at = end;
        }
    }

    // A word, a sign of at most one byte and the bytes after them, as one: nothing is put where they do not all fit.
    #[inline(always)]
    fn put_signed(&mut self, word: &[u8], sign: &[u8], bytes: &[u8])
        requires { length sign.now ≤ 1 }
        ensures { Prints self.old (word.now ++ (sign.now ++ bytes.now)) self.new }
    {
        if self.has_room(word.len() + sign.len() + bytes.len()) {
            self.put_bytes(word);
            self.put_bytes(sign);
            self.put_bytes(bytes);
        }
    }

    // A word and the bytes after it.
    #[inline(always)]
    fn put_both(&mut self, word: &[u8], bytes: &[u8])
        ensures { Prints self.old (word.now ++ bytes.now) self.new }
    {
        self.put_signed(word, b"", bytes);
    }

    // A word, a sign and a number's digits. (Its promise is in the paper's `decimal`, the kit's in `I.text`.)
    #[inline(always)]
    fn put_number(&mut self, word: &[u8], sign: &[u8], n: u64)
        requires { length sign.now ≤ 1 }
        ensures { Prints self.old (word.now ++ (sign.now ++ decimal n)) self.new }
    {
        let mut buffer = Buffer::new();
        self.put_signed(word, sign, buffer.format(n).as_bytes());
    }

    #[inline(always)]
    pub fn put_field(&mut self, word: &[u8], n: u64)
        ensures { Prints self.old (word.now ++ decimal n) self.new }
    {
        self.put_number(word, b"", n);
    }

    #[inline(always)]
    pub fn put_sum(&mut self, word: &[u8], z: i64)
        ensures { Prints self.old (word.now ++ signed z) self.new }
    {
        let sign: &[u8] = if z < 0 { b"-" } else { b"" };
        self.put_number(word, sign, z.unsigned_abs());
    }

    // The last two digits of a number.
    pub fn put_two_digits(&mut self, word: &[u8], n: u64)
        ensures { Prints self.old (word.now ++ two_digits n) self.new }
    {
        self.put_both(word, &[digit(n / 10), digit(n)]);
    }

    // A number of hundredths, with two decimals.
    pub fn put_hundredths(&mut self, n: u64)
        ensures { Prints self.old (hundredths n) self.new }
    {
        let mut buffer = Buffer::new();
        let whole = buffer.format(n / 100).as_bytes();
        self.put_both(whole, &[b'.', digit(n / 10), digit(n)]);
    }
}

// A number's last digit.
fn digit(n: u64) -> u8
    ensures { result ≡ 48 + n % 10 }
{
    b'0' + (n % 10) as u8
}

// The definition of a number's digits counts them down from one more than the number, which is enough.
pub fn count_suffices()
    ensures { DigitsSuffice }
{}
