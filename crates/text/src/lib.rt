// The text of a listing and of a replay: numbers in decimal, words, and lines of them, stored in bytes that a caller lends.
// Nothing here knows what a number means. A text is stored whole, or not at all where it has too little room: each `put_` function
// answers the place behind the text, or None. The list and the place stand side by side: in a struct that borrows the list, each caller
// would make and take apart one more value for each line.
#![tactic(auto)]

ghost use Rattle.std.specs.Prelude.{◌≡◌, ◌+◌, ◌*◌, ◌<◌, ◌≤◌, leb, length, ◌++◌};
ghost use Rattle.text.specs.Text.{decimal, last_digits, Digits, spaced, line, named, row, named_row, header, refused_words, refused_at, refused_named, refused, added, held, plan};
ghost use Rattle.text.specs.Store.{Stored, Answered, place_behind};

// Bytes that a number and the space before it take at most.
const MOST: usize = 21;

// The place behind a text that was stored from place `at` on, or `at` where it had too little room.
pub fn behind(answer: Option<usize>, at: usize) -> usize
    ensures { result ≡ place_behind at answer }
{
    answer.unwrap_or(at)
}

// How many digits n has.
fn digits(n: u64) -> usize
    ensures { Digits n result }
{
    match n.checked_ilog10() {
        Some(power) => power as usize + 1,
        None => 1,
    }
}

// Stores the last three digits of n, zeros in front among them.
fn store_group(out: &mut [u8], at: usize, n: u64) -> usize
    requires { at + 3 ≤ length out.old }
    ensures { Stored out.old at (last_digits 3 n) result out.new }
{
    let group = n % 1_000;
    out[at] = (48 + group / 100) as u8;
    out[at + 1] = (48 + group / 10 % 10) as u8;
    out[at + 2] = (48 + group % 10) as u8;
    at + 3
}

// Stores a number below 1,000 in decimal. That there is room is a clause of this function and the next two and no type: it is of the
// list, the place and the number together.
fn store_leading(out: &mut [u8], at: usize, n: u64) -> usize
    requires { (n < 1_000) × (at + length (decimal n) ≤ length out.old) }
    ensures { Stored out.old at (decimal n) result out.new }
{
    if 100 <= n {
        return store_group(out, at, n);
    }
    if n < 10 {
        out[at] = (48 + n) as u8;
        return at + 1;
    }
    out[at] = (48 + n / 10) as u8;
    out[at + 1] = (48 + n % 10) as u8;
    at + 2
}

// Stores a number below 1,000,000 in decimal.
fn store_short(out: &mut [u8], at: usize, n: u64) -> usize
    requires { (n < 1_000_000) × (at + length (decimal n) ≤ length out.old) }
    ensures { Stored out.old at (decimal n) result out.new }
{
    if n < 1_000 {
        return store_leading(out, at, n);
    }
    let end = store_leading(out, at, n / 1_000);
    store_group(out, end, n)
}

// By hand and not by `write!`: the promise is every byte and the place behind them, and the digits are those of the definition
// `decimal`. Stores n in decimal: its millions, and the last six digits.
fn store_number(out: &mut [u8], at: usize, n: u64) -> usize
    requires { at + length (decimal n) ≤ length out.old }
    ensures { Stored out.old at (decimal n) result out.new }
{
    if n < 1_000_000 {
        return store_short(out, at, n);
    }
    let thousands = n / 1_000;
    let millions = store_number(out, at, thousands / 1_000);
    let end = store_group(out, millions, thousands);
    store_group(out, end, n)
}

// Stores the bytes of a text.
fn store_bytes(out: &mut [u8], at: usize, text: &[u8]) -> usize
    requires { at + length text.now ≤ length out.old }
    ensures { Stored out.old at text.now result out.new }
{
    let end = at + text.len();
    out[at..end].copy_from_slice(text);
    end
}

// Stores numbers in decimal, each after one space.
fn store_spaced(out: &mut [u8], at: usize, numbers: &[u64]) -> usize
    requires { at + length (spaced numbers.now) ≤ length out.old }
    ensures { Stored out.old at (spaced numbers.now) result out.new }
{
    let mut end = at;
    for &n in numbers {
        out[end] = b' ';
        end = store_number(out, end + 1, n);
    }
    end
}

// Whether numbers, each after one space, have room in `room` bytes. They are counted only where the longest would have none.
fn spaced_fits(numbers: &[u64], room: usize) -> bool
    ensures { result ≡ leb (length (spaced numbers.now)) room }
{
    if numbers.len() <= room / MOST {
        return true;
    }
    let mut left = room;
    for &n in numbers {
        let count = digits(n);
        if left <= count {
            return false;
        }
        left -= count + 1;
    }
    true
}

// Whether words, the numbers each after one space, and a line feed have room in `room` bytes.
fn line_fits(words: &[u8], numbers: &[u64], room: usize) -> bool
    ensures { result ≡ leb (length (line words.now numbers.now)) room }
{
    if room <= words.len() {
        return false;
    }
    spaced_fits(numbers, room - words.len() - 1)
}

// Stores words, and the numbers each after one space.
fn store_words(out: &mut [u8], at: usize, words: &[u8], numbers: &[u64]) -> usize
    requires { at + (length words.now + length (spaced numbers.now)) ≤ length out.old }
    ensures { Stored out.old at (words.now ++ spaced numbers.now) result out.new }
{
    let behind = store_bytes(out, at, words);
    store_spaced(out, behind, numbers)
}

// Stores words, the numbers each after one space, and a line feed.
fn store_line(out: &mut [u8], at: usize, words: &[u8], numbers: &[u64]) -> usize
    requires { at + length (line words.now numbers.now) ≤ length out.old }
    ensures { Stored out.old at (line words.now numbers.now) result out.new }
{
    let end = store_words(out, at, words, numbers);
    out[end] = b'\n';
    end + 1
}

// Stores words, the numbers each after one space, a name after one space, and a line feed.
fn store_named(out: &mut [u8], at: usize, words: &[u8], numbers: &[u64], name: &[u8]) -> usize
    requires { at + length (named words.now numbers.now name.now) ≤ length out.old }
    ensures { Stored out.old at (named words.now numbers.now name.now) result out.new }
{
    let before = store_words(out, at, words, numbers);
    out[before] = b' ';
    let last = store_bytes(out, before + 1, name);
    out[last] = b'\n';
    last + 1
}

// Stores words, the numbers each after one space, and a line feed.
pub fn put_line(out: &mut [u8], at: usize, words: &[u8], numbers: &[u64]) -> Option<usize>
    ensures { Answered out.old at (line words.now numbers.now) result out.new }
{
    let room = out.len().checked_sub(at)?;
    if line_fits(words, numbers, room) {
        Some(store_line(out, at, words, numbers))
    } else {
        None
    }
}

// Stores words, the numbers each after one space, a name after one space, and a line feed. What a line has room in, less the name
// and its space, is room for its words and numbers.
pub fn put_named(
    out: &mut [u8],
    at: usize,
    words: &[u8],
    numbers: &[u64],
    name: &[u8],
) -> Option<usize>
    ensures { Answered out.old at (named words.now numbers.now name.now) result out.new }
{
    let room = out.len().checked_sub(at)?;
    if room <= name.len() {
        return None;
    }
    if line_fits(words, numbers, room - name.len() - 1) {
        Some(store_named(out, at, words, numbers, name))
    } else {
        None
    }
}

// Stores the bytes of a text.
pub fn put_bytes(out: &mut [u8], at: usize, text: &[u8]) -> Option<usize>
    ensures { Answered out.old at text.now result out.new }
{
    let room = out.len().checked_sub(at)?;
    if room < text.len() {
        return None;
    }
    Some(store_bytes(out, at, text))
}

// Lines that begin with one word: `put_line` is the general function, and each of these writes the word of its contract once.
// A line that ends with a name has functions of its own, since definitions and contracts have (`row`, `named_row`): over an Option
// of a name each contract would join two of them by cases.

// Stores the line `mark length accel entry peak exit up cruise down`.
pub fn put_header(out: &mut [u8], at: usize) -> Option<usize>
    ensures { Answered out.old at header result out.new }
{
    put_bytes(
        out,
        at,
        b"mark length accel entry peak exit up cruise down\n",
    )
}

// Stores the line `added`.
pub fn put_added(out: &mut [u8], at: usize) -> Option<usize>
    ensures { Answered out.old at added result out.new }
{
    put_bytes(out, at, b"added\n")
}

// Stores the line `refused`, the number.
pub fn put_refused(out: &mut [u8], at: usize, number: u64) -> Option<usize>
    ensures { Answered out.old at (refused number) result out.new }
{
    put_line(out, at, b"refused", &[number])
}

// Stores the line `held`, the number.
pub fn put_held(out: &mut [u8], at: usize, number: u64) -> Option<usize>
    ensures { Answered out.old at (held number) result out.new }
{
    put_line(out, at, b"held", &[number])
}

// Stores the line `plan`, the numbers.
pub fn put_plan(out: &mut [u8], at: usize, numbers: &[u64]) -> Option<usize>
    ensures { Answered out.old at (plan numbers.now) result out.new }
{
    put_line(out, at, b"plan", numbers)
}

// Stores the numbers parted by one space, and a line feed: at most `MOST` bytes a number, and one.
pub fn put_row(out: &mut [u8], at: usize, numbers: &[u64]) -> Option<usize>
    ensures answered { Answered out.old at (row numbers.now) result out.new }
    ensures short { length (row numbers.now) ≤ 21 * length numbers.now + 1 }
{
    let Some((&first, rest)) = numbers.split_first() else {
        return put_bytes(out, at, b"\n");
    };
    let mut words = [0u8; 20];
    let end = store_number(&mut words, 0, first);
    put_line(out, at, &words[..end], rest)
}

// Stores the numbers and a name, parted by one space, and a line feed.
pub fn put_named_row(out: &mut [u8], at: usize, numbers: &[u64], name: &[u8]) -> Option<usize>
    ensures { Answered out.old at (named_row numbers.now name.now) result out.new }
{
    let Some((&first, rest)) = numbers.split_first() else {
        return put_line(out, at, name, numbers);
    };
    let mut words = [0u8; 20];
    let end = store_number(&mut words, 0, first);
    put_named(out, at, &words[..end], rest, name)
}

// Stores `refused`, the number, `at`: at most 31 bytes.
fn store_refused(out: &mut [u8; 31], number: u64) -> usize
    ensures { Stored out.old 0 (refused_words number) result out.new }
{
    let before = store_bytes(out, 0, b"refused ");
    let behind = store_number(out, before, number);
    store_bytes(out, behind, b" at")
}

// Stores the line `refused`, the number, `at`, the place.
pub fn put_refused_at(out: &mut [u8], at: usize, number: u64, place: u64) -> Option<usize>
    ensures { Answered out.old at (refused_at number place) result out.new }
{
    let mut words = [0u8; 31];
    let end = store_refused(&mut words, number);
    put_line(out, at, &words[..end], &[place])
}

// Stores the line `refused`, the number, `at`, the place, a name.
pub fn put_refused_named(
    out: &mut [u8],
    at: usize,
    number: u64,
    place: u64,
    name: &[u8],
) -> Option<usize>
    ensures { Answered out.old at (refused_named number place name.now) result out.new }
{
    let mut words = [0u8; 31];
    let end = store_refused(&mut words, number);
    put_named(out, at, &words[..end], &[place], name)
}
