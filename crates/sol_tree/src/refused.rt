// The words of Solidity that are outside the language.

ghost use Rattle.std.specs.Prelude.{◌≡◌};
ghost use Rattle.sol_tree.specs.Refused.{is_digits, is_number, is_one_of, is_pair, is_refused_word, is_sized, is_sizes, refused_words, texts};

// The words of Solidity that are outside the language, but for the fixed-point types.
const REFUSED_WORDS: [&str; 104] = [
    "uint",
    "int",
    "uint104",
    "uint112",
    "uint120",
    "uint128",
    "uint136",
    "uint144",
    "uint152",
    "uint160",
    "uint168",
    "uint176",
    "uint184",
    "uint192",
    "uint200",
    "uint208",
    "uint216",
    "uint224",
    "uint232",
    "uint240",
    "uint248",
    "uint256",
    "int104",
    "int112",
    "int120",
    "int128",
    "int136",
    "int144",
    "int152",
    "int160",
    "int168",
    "int176",
    "int184",
    "int192",
    "int200",
    "int208",
    "int216",
    "int224",
    "int232",
    "int240",
    "int248",
    "int256",
    "bytes",
    "bytes1",
    "bytes2",
    "bytes3",
    "bytes4",
    "bytes5",
    "bytes6",
    "bytes7",
    "bytes8",
    "bytes9",
    "bytes10",
    "bytes11",
    "bytes12",
    "bytes13",
    "bytes14",
    "bytes15",
    "bytes16",
    "bytes17",
    "bytes18",
    "bytes19",
    "bytes20",
    "bytes21",
    "bytes22",
    "bytes23",
    "bytes24",
    "bytes25",
    "bytes26",
    "bytes27",
    "bytes28",
    "bytes29",
    "bytes30",
    "bytes31",
    "bytes32",
    "string",
    "struct",
    "enum",
    "memory",
    "calldata",
    "storage",
    "payable",
    "receive",
    "fallback",
    "library",
    "using",
    "import",
    "assembly",
    "new",
    "try",
    "catch",
    "this",
    "block",
    "tx",
    "abi",
    "gasleft",
    "blockhash",
    "keccak256",
    "sha256",
    "ripemd160",
    "ecrecover",
    "addmod",
    "mulmod",
    "selfdestruct",
];

/// Whether a word is one of these.
pub fn is_one_of(word: &[u8], words: &[&str]) -> bool
    ensures { result ≡ is_one_of word.now (texts words.now) }
{
    let mut rest = words;
    while let [first, more @ ..] = rest {
        if word == first.as_bytes() {
            return true;
        }
        rest = more;
    }
    false
}

fn is_digits(text: &[u8]) -> bool
    ensures { result ≡ is_digits text.now }
{
    let mut rest = text;
    while let [byte, more @ ..] = rest {
        if !byte.is_ascii_digit() {
            return false;
        }
        rest = more;
    }
    true
}

fn is_number(text: &[u8]) -> bool
    ensures { result ≡ is_number text.now }
{
    match text {
        [] => false,
        [byte, more @ ..] => byte.is_ascii_digit() && is_digits(more),
    }
}

fn is_pair(text: &[u8]) -> bool
    ensures { result ≡ is_pair text.now }
{
    let mut rest = text;
    while let [byte, more @ ..] = rest {
        if !byte.is_ascii_digit() {
            return *byte == b'x' && is_number(more);
        }
        rest = more;
    }
    false
}

fn is_sizes(text: &[u8]) -> bool
    ensures { result ≡ is_sizes text.now }
{
    match text {
        [] => true,
        [byte, more @ ..] => byte.is_ascii_digit() && is_pair(more),
    }
}

// Whether a word is a stem, alone or followed by digits, `x` and digits.
fn is_sized(stem: &[u8], word: &[u8]) -> bool
    ensures { result ≡ is_sized stem.now word.now }
{
    let mut left = stem;
    let mut rest = word;
    while let [wanted, more_left @ ..] = left {
        match rest {
            [] => return false,
            [byte, more @ ..] => {
                if byte != wanted {
                    return false;
                }
                left = more_left;
                rest = more;
            }
        }
    }
    is_sizes(rest)
}

// Whether a word is one of the table.
#[tactic(auto, unfolding(crate::specs::Refused::refused_words))]
fn is_in_table(word: &[u8]) -> bool
    ensures { result ≡ is_one_of word.now refused_words }
{
    is_one_of(word, &REFUSED_WORDS)
}

/// Whether a word is outside the language: one of the table, or `fixed` or `ufixed`, alone or followed by digits,
/// `x` and digits.
#[tactic(auto, unfolding(crate::specs::Refused::is_refused_word))]
pub fn is_refused_word(word: &[u8]) -> bool
    ensures { result ≡ is_refused_word word.now }
{
    is_in_table(word) || is_sized(b"fixed", word) || is_sized(b"ufixed", word)
}
