// Scans over the words of a script: where a part ends, what the script weighs, where its statements begin.

#![tactic(auto)]

ghost use Rattle.std.specs.Prelude.{◌≡◌, ◌+◌, ◌<◌, ◌≤◌, max, map, length, drop};
ghost use Rattle.words.specs.Words.{read_word, max_words};
ghost use Rattle.grammar.specs.Format.{skip};
ghost use Rattle.scan.specs.Scan.{end_from, Ends, Unique};
ghost use Rattle.words.specs.Tree.{Statements};
ghost use Rattle.words.specs.Encode.{encode_body};
ghost use Rattle.scan.specs.Places.{declares, begins_statement_lem, begins_at, places_words, places_body, at_place};
ghost use Rattle.scan.specs.Weight.{weight_kind, is_constant_lem, test_words, weight_first, weight_words, weight_body};

use grammar::table::part_count;
use grammar::*;
use words::word::*;

// Where the part that begins at a word ends: the word after it, or the end of the words.
pub fn end_of(words: &[u32], at: usize) -> usize
    ensures value { result ≡ end_from (map read_word words.now) at }
    ensures within { (at ≤ result) × (result ≤ max at (length words.now)) }
    ensures rest { drop result (map read_word words.now) ≡ skip 1 (drop at (map read_word words.now)) }
    ensures ends { Ends (map read_word words.now) at result }
    ensures unique { Unique (drop at (map read_word words.now)) }
{
    let rest = &words[at.min(words.len())..];
    let mut due: usize = 1;
    for (read, word) in rest.iter().enumerate() {
        if due == 0 {
            return at + read;
        }
        due = (due - 1).saturating_add(part_count(Word::from(*word)));
    }
    at + rest.len()
}

// What a word weighs by itself.
const PLAIN: u32 = 1;

const STATEMENT: u32 = 2;

const SWITCH: u32 = 3;

const CASE: u32 = 3;

// The expressions 0 and 1 are the literals 0 and 1.
const LAST_CONSTANT: u32 = 1;

// What a word of this kind weighs, a test aside.
fn kind_weight(kind: Kind) -> u32
    ensures value { result ≡ weight_kind kind }
    ensures small { result ≤ 3 }
{
    if kind == Kind::Switch {
        SWITCH
    } else if kind.is_between(Kind::Block, Kind::Try) {
        STATEMENT
    } else if kind.is_between(Kind::Case, Kind::Default) {
        CASE
    } else {
        PLAIN
    }
}

// Whether a word is the expression 0 or 1.
fn is_constant(word: Word) -> bool
    ensures { result ≡ is_constant_lem word }
{
    word.kind == Kind::Expression && word.number <= LAST_CONSTANT
}

// What an If weighs more for the test that these words begin with.
fn test_weight(words: &[u32]) -> u32
    ensures value { result ≡ test_words (map read_word words.now) }
    ensures small { result ≤ 1 }
{
    match words {
        [word, ..] if is_constant(Word::from(*word)) => 0,
        _ => 1,
    }
}

// What a word weighs, seen with those after it.
fn first_weight(word: Word, after: &[u32]) -> u32
    ensures value { result ≡ weight_first word (map read_word after.now) }
    ensures small { result ≤ 4 }
{
    let test = if word.kind == Kind::If {
        test_weight(after)
    } else {
        0
    };
    kind_weight(word.kind) + test
}

// What the words of a script weigh.
pub fn weigh(words: &[u32]) -> u32
    requires { length words.now ≤ max_words }
    ensures value { result ≡ weight_words (map read_word words.now) }
    ensures tree { (ss : Statements) → map read_word words.now ≡ encode_body ss → result ≡ weight_body ss }
{
    let mut weight = 0;
    let mut rest = words;
    // By what is left of the words, since an If looks at the word after it.
    while let [word, after @ ..] = rest {
        weight += first_weight(Word::from(*word), after);
        rest = after;
    }
    weight
}

// Whether the word after this one is a For's declaration.
fn declares(word: Word) -> bool
    ensures { result ≡ declares word }
{
    word.kind == Kind::For && has(FOR_DECLARATION, word.number) == 1
}

// Whether a word begins a statement, given whether it is a For's declaration.
fn is_statement(declaration: bool, word: Word) -> bool
    ensures { result ≡ begins_statement_lem declaration word }
{
    !declaration && word.kind.is_between(Kind::Empty, Kind::Try)
}

// Whether a statement begins at an index of the words: it is the index that is asked about.
fn begins_statement(words: &[u32], at: usize) -> bool
    ensures { result ≡ begins_at (map read_word words.now) at }
{
    if at >= words.len() {
        return false;
    }
    let word = Word::from(words[at]);
    if at == 0 {
        return is_statement(false, word);
    }
    is_statement(declares(Word::from(words[at - 1])), word)
}

// How many words begin a statement. The chain stands here and below, since no function can answer one today: its
// closure has no name.
fn count_places(words: &[u32]) -> usize
    ensures { result ≡ length (places_words (map read_word words.now)) }
{
    (0..words.len())
        .filter(|at| begins_statement(words, *at))
        .count()
}

// Where the statement at a place begins.
fn get_place(words: &[u32], place: usize) -> Option<usize>
    ensures { result ≡ at_place place (places_words (map read_word words.now)) }
{
    (0..words.len())
        .filter(|at| begins_statement(words, *at))
        .nth(place)
}

// How many statements the words have. Here and below the chain stands apart with its written proof, so that an edit of
// a public function is refused at its clauses.
#[tactic(auto, using(crate::proofs::Placed::places_of_body))]
pub fn statements(words: &[u32]) -> usize
    ensures value { result ≡ length (places_words (map read_word words.now)) }
    ensures tree { (ss : Statements) → map read_word words.now ≡ encode_body ss → result ≡ length (places_body ss) }
{
    count_places(words)
}

// The word where the statement at a place begins; none where there are not so many statements.
#[tactic(auto, using(crate::proofs::Placed::places_of_body))]
pub fn find_statement(words: &[u32], place: usize) -> Option<usize>
    ensures value { result ≡ at_place place (places_words (map read_word words.now)) }
    ensures tree { (ss : Statements) → map read_word words.now ≡ encode_body ss → result ≡ at_place place (places_body ss) }
{
    get_place(words, place)
}
