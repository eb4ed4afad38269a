//! What a line asks for.

ghost use Rattle.std.specs.Prelude.{◌≡◌, ◌≤◌, ℕ, List, [], ◌∷◌, IfSome, IfNone, None, Some, MatchOption};
ghost use Rattle.std.specs.List.{list_all};
ghost use Rattle.cil_server.specs.Asked.{asked, is_decimal, is_digit, value_of, longest_body, words_of, alone, announced, checked, queried, switched, valued};
ghost use Rattle.cil_server.specs.Views.{line_of, IsCapped, IsWords};

/// A line, read.
#[derive(Clone, Copy)]
pub(crate) enum Line<'a> {
    /// A request that is whole.
    Plain(Plain<'a>),
    /// INSTALL, and how many bytes of body follow.
    Install(usize),
    /// IMPORT, and how many bytes of body follow.
    Import(usize),
    /// A body that is too long.
    TooBig,
    Quit,
}

/// A request without a body.
#[derive(Clone, Copy)]
pub(crate) enum Plain<'a> {
    Export,
    List,
    Load,
    Optionals,
    Why,
    /// AV.
    Ask(Query<'a>),
    /// CHECK: a query, and a permission.
    Check(Query<'a>, &'a [u8]),
    /// SET: the name of a boolean, and whether it is turned on.
    Set(&'a [u8], bool),
    Unknown,
}

/// The texts of a query.
#[derive(Clone, Copy)]
pub(crate) struct Query<'a> {
    pub source: &'a [u8],
    pub target: &'a [u8],
    pub class: &'a [u8],
}

/// How many bytes may follow a line.
const LONGEST_BODY: usize = 67_108_864;

/// The words of a line, by their number.
#[derive(Clone, Copy)]
enum Words<'a> {
    One(&'a [u8]),
    Two(&'a [u8], &'a [u8]),
    Three(&'a [u8], &'a [u8], &'a [u8]),
    Four(&'a [u8], Query<'a>),
    Five(&'a [u8], Query<'a>, &'a [u8]),
    Other,
}

/// Reads a line, without its newline.
#[tactic(auto, unfolding(crate::specs::Asked::asked))]
pub(crate) fn read_line(line: &[u8]) -> Line<'_>
    ensures { line_of result ≡ asked line.now }
{
    match words_of(line) {
        Words::One(word) => alone(word),
        Words::Two(word, digits) => announced(word, digits),
        Words::Three(word, name, value) => switched(word, name, value),
        Words::Four(word, query) => queried(word, query.source, query.target, query.class),
        Words::Five(word, query, permission) => checked(word, query, permission),
        Words::Other => Line::Plain(Plain::Unknown),
    }
}

fn words_of(line: &[u8]) -> Words<'_>
    ensures { IsWords (words_of line.now) result }
{
    let mut words = line.split(|byte| *byte == b' ');
    let Some(word) = words.next() else {
        return Words::Other;
    };
    let Some(second) = words.next() else {
        return Words::One(word);
    };
    let Some(third) = words.next() else {
        return Words::Two(word, second);
    };
    let Some(fourth) = words.next() else {
        return Words::Three(word, second, third);
    };
    let query = Query {
        source: second,
        target: third,
        class: fourth,
    };
    let Some(fifth) = words.next() else {
        return Words::Four(word, query);
    };
    if let Some(_) = words.next() {
        return Words::Other;
    }
    Words::Five(word, query, fifth)
}

#[tactic(auto, unfolding(crate::specs::Asked::alone))]
fn alone(word: &[u8]) -> Line<'static>
    ensures { line_of result ≡ alone word.now }
{
    if word == b"EXPORT".as_slice() {
        return Line::Plain(Plain::Export);
    }
    if word == b"LIST".as_slice() {
        return Line::Plain(Plain::List);
    }
    if word == b"LOAD".as_slice() {
        return Line::Plain(Plain::Load);
    }
    if word == b"OPTIONALS".as_slice() {
        return Line::Plain(Plain::Optionals);
    }
    if word == b"QUIT".as_slice() {
        return Line::Quit;
    }
    if word == b"WHY".as_slice() {
        return Line::Plain(Plain::Why);
    }
    Line::Plain(Plain::Unknown)
}

#[tactic(auto, unfolding(crate::specs::Asked::announced))]
fn announced(word: &[u8], digits: &[u8]) -> Line<'static>
    ensures { line_of result ≡ announced word.now digits.now }
{
    if !is_decimal(digits) {
        return Line::Plain(Plain::Unknown);
    }
    let is_install = word == b"INSTALL".as_slice();
    if !is_install && word != b"IMPORT".as_slice() {
        return Line::Plain(Plain::Unknown);
    }
    let length = capped_value(digits);
    if length > LONGEST_BODY {
        return Line::TooBig;
    }
    if is_install {
        Line::Install(length)
    } else {
        Line::Import(length)
    }
}

#[tactic(auto, unfolding(crate::specs::Asked::queried))]
fn queried<'a>(word: &[u8], source: &'a [u8], target: &'a [u8], class: &'a [u8]) -> Line<'a>
    ensures { line_of result ≡ queried word.now source.now target.now class.now }
{
    if word == b"AV".as_slice()
        && source != b"".as_slice()
        && target != b"".as_slice()
        && class != b"".as_slice()
    {
        Line::Plain(Plain::Ask(Query {
            source,
            target,
            class,
        }))
    } else {
        Line::Plain(Plain::Unknown)
    }
}

#[tactic(auto, unfolding(crate::specs::Asked::checked))]
fn checked<'a>(word: &[u8], query: Query<'a>, permission: &'a [u8]) -> Line<'a>
    ensures { line_of result ≡ checked word.now query.entry.source.now query.entry.target.now query.entry.class.now permission.now }
{
    if word == b"CHECK".as_slice()
        && query.source != b"".as_slice()
        && query.target != b"".as_slice()
        && query.class != b"".as_slice()
        && permission != b"".as_slice()
    {
        Line::Plain(Plain::Check(query, permission))
    } else {
        Line::Plain(Plain::Unknown)
    }
}

#[tactic(auto, unfolding(crate::specs::Asked::switched))]
fn switched<'a>(word: &[u8], name: &'a [u8], value: &[u8]) -> Line<'a>
    ensures { line_of result ≡ switched word.now name.now value.now }
{
    if word == b"SET".as_slice() && name != b"".as_slice() {
        valued(name, value)
    } else {
        Line::Plain(Plain::Unknown)
    }
}

#[tactic(auto, unfolding(crate::specs::Asked::valued))]
fn valued<'a>(name: &'a [u8], value: &[u8]) -> Line<'a>
    ensures { line_of result ≡ valued name.now value.now }
{
    if value == b"true".as_slice() {
        return Line::Plain(Plain::Set(name, true));
    }
    if value == b"false".as_slice() {
        return Line::Plain(Plain::Set(name, false));
    }
    Line::Plain(Plain::Unknown)
}

/// Whether a word is a decimal without needless zeros.
fn is_decimal(digits: &[u8]) -> bool
    ensures { result ≡ is_decimal digits.now }
{
    match digits {
        [] => false,
        [digit] => is_digit(*digit),
        [first, _, ..] => *first != b'0' && are_digits(digits),
    }
}

fn are_digits(bytes: &[u8]) -> bool
    ensures { result ≡ list_all is_digit bytes.now }
{
    bytes.iter().all(|byte| is_digit(*byte))
}

fn is_digit(byte: u8) -> bool
    ensures { result ≡ is_digit byte }
{
    b'0' <= byte && byte <= b'9'
}

/// The number that digits write, or one more than a body may have where it is greater.
fn capped_value(digits: &[u8]) -> usize
    ensures { IsCapped (value_of digits.now) result }
{
    let mut value = 0;
    for digit in digits {
        let digit = digit.saturating_sub(b'0') as usize;
        value = (value * 10 + digit).min(LONGEST_BODY + 1);
    }
    value
}
