//! Folders of journals: which journal a start continues, or why none, worked out by hand. A line
//! has files, each with its number, the length of its text and the number of its first bytes that
//! the file has, and then the choice.

use crate::journals::{front_of, journal_bytes};
use crate::lines::{Judge, expect_lines, expect_text, expect_that, expect_words, number_in, split};
use crate::readers::Pieces;
use std::alloc::{AllocError, Global};
use std::process::Abort;
use tfs_folder::{
    Chosen, FolderFile, JournalReader, NoChoice, NotPast, StartPlan, Unchosen, choose,
    choose_beside, name_of, number_of, plan,
};
use tfs_records::MemorySink;
use tfs_stream::Watched;
use tfs_table::{OpenFault, Table};

/// Returns the file of a word.
fn file_of(rt: &(impl Alloc<A = Global> + Abort), word: &str) -> FolderFile {
    let (number, text) = word.split_once(':').expect(rt, "a number");
    let (length, count) = text.split_once(':').expect(rt, "a length and a count");
    let name = format!(in rt.alloc(); "journal-000000000{number}.tfj");
    FolderFile::new(name.expect(rt, "memory"), front_of(rt, length, count))
}

/// Returns the files of words.
fn files_of(rt: &(impl Alloc<A = Global> + Abort), words: &str) -> Vec<FolderFile> {
    let mut files = Vec::new(rt.alloc());
    for word in words.split_whitespace() {
        files.push(file_of(rt, word)).ok().expect(rt, "memory");
    }
    files
}

/// Returns a choice in words: its number, the number of a journal that a failed start left, and its
/// position.
fn chosen_words(alloc: Global, chosen: &Chosen) -> Result<String, AllocError> {
    let (number, position) = (chosen.number, chosen.table.position());
    match chosen.left {
        Some(left) => format!(in alloc; "{number} at {position}, {left} left"),
        None => format!(in alloc; "{number} at {position}"),
    }
}

/// Returns in words why there is no choice: the number of the journal that shows it, and the fault.
fn unchosen_words(alloc: Global, unchosen: Unchosen) -> Result<String, AllocError> {
    let why = unchosen.why;
    match unchosen.number {
        Some(number) => format!(in alloc; "{number} {why:?}"),
        None => format!(in alloc; "- {why:?}"),
    }
}

/// Returns the choice in a folder, in words.
fn choice_of(alloc: Global, files: Vec<FolderFile>, least: u64) -> Result<String, AllocError> {
    match choose(alloc, files, least) {
        Ok(chosen) => chosen_words(alloc, &chosen),
        Err(unchosen) => unchosen_words(alloc, unchosen),
    }
}

/// Returns readers of the journals among files, in pieces of at most `most` bytes. The reader of
/// one number fails after its bytes.
fn readers_of<'f>(
    rt: &(impl Alloc<A = Global> + Abort),
    files: &'f [FolderFile],
    most: usize,
    failing: u64,
) -> Vec<JournalReader<Watched<Pieces<'f>>>> {
    let mut readers = Vec::new(rt.alloc());
    for file in files {
        if let Some(number) = number_of(file.name()) {
            let reader = Watched::new(Pieces::new(file.bytes(), most, number == failing));
            let reader = JournalReader { number, reader };
            readers.push(reader).ok().expect(rt, "memory");
        }
    }
    readers
}

/// Returns the choice among these readers, in words.
fn choice_beside(
    alloc: Global,
    readers: Vec<JournalReader<Watched<Pieces<'_>>>>,
    least: u64,
) -> Result<String, AllocError> {
    match choose_beside(alloc, readers, least) {
        Ok(chosen) => chosen_words(alloc, &chosen),
        Err(why) => no_choice_words(alloc, why),
    }
}

/// Returns in words why there is no choice among readers.
fn no_choice_words(alloc: Global, why: NoChoice) -> Result<String, AllocError> {
    match why {
        NoChoice::Unchosen(unchosen) => unchosen_words(alloc, unchosen),
        NoChoice::Unread(number, fault) => format!(in alloc; "{number} unread {fault:?}"),
    }
}

/// A number that no file has.
const NONE: u64 = u64::MAX;

/// Lines with the least position and the files. They are read whole and in pieces.
struct Choices;

impl Judge for Choices {
    fn judge(rt: &(impl Alloc<A = Global> + Abort), given: &str, wanted: &str) {
        let (least, words) = split(given);
        let least = number_in(rt, least);
        expect_words(
            rt,
            choice_of(rt.alloc(), files_of(rt, words), least),
            wanted,
        );
        let most = given.len().wrapping_add(3).wrapping_add(wanted.len()) % 97 + 1;
        let files = files_of(rt, words);
        let readers = readers_of(rt, files.as_slice(), most, NONE);
        expect_words(rt, choice_beside(rt.alloc(), readers, least), wanted);
    }
}

/// Folders, and the choice in each.
const CHOICES: &str = "0 1:104:104 = 1 at 2
2 1:104:104 = 1 at 2
3 1:104:104 = 1 NotAtLeast(2)
0 1:104:90 = 1 at 1
0 1:104:104 2:92:92 = 2 at 2
0 2:92:92 1:104:104 = 2 at 2
0 1:104:104 2:92:92 3:92:92 = 3 at 2
0 1:104:104 2:92:91 = 1 at 2, 2 left
0 1:104:104 2:92:0 = 1 at 2, 2 left
3 1:104:104 2:92:0 = 1 NotAtLeast(2)
0 1:104:104 2:130:130 = 2 Diverged
0 1:104:104 2:104:104 = 2 Diverged
0 1:104:90 2:92:92 = 2 Diverged
0 1:104:104 2:92:92 3:130:130 = 3 Diverged
0 1:104:104 2:130:130 3:92:92 = 2 Diverged
0 1:104:104 2:130:20 = 2 TornBase
0 1:104:104 2:92:91 3:92:92 = 2 TornBase
0 1:137:137 2:92:92 = 1 Unlawful(2)
0 1:104:104 2:137:137 = 2 Unlawful(2)
0 1:104:104 2:changed:104 = 2 Damaged(5)
0 1:92:91 = 1 TornBase
0 1:92:3 = 1 TornBase
0 1:92:0 = 1 TornBase
0 1:92:50 2:92:92 = 1 TornBase
0 = - NoJournal
0 c:104:104 = - NoJournal
0 c:92:50 1:104:104 = 1 at 2";

#[test]
fn the_newest_journal_that_follows_is_chosen(rt: HostRuntime) {
    expect_lines::<Choices>(&rt, CHOICES);
}

/// Lines with the number of the journal whose reader fails, and the files.
struct Failing;

impl Judge for Failing {
    fn judge(rt: &(impl Alloc<A = Global> + Abort), given: &str, wanted: &str) {
        let (failing, words) = split(given);
        let files = files_of(rt, words);
        let readers = readers_of(rt, files.as_slice(), 50, number_in(rt, failing));
        expect_words(rt, choice_beside(rt.alloc(), readers, 0), wanted);
    }
}

/// Folders in which the reader of one journal fails, and the choice.
const FAILING: &str = "1 1:104:104 2:92:92 = 1 unread Source
1 1:104:0 2:92:92 = 1 unread Source
2 1:104:104 2:92:92 = 2 unread Source
2 1:104:104 2:92:91 = 2 unread Source
2 1:104:104 2:92:0 = 2 unread Source
2 1:104:104 2:130:130 = 2 unread Source
2 1:104:104 2:92:92 3:92:92 = 2 unread Source
3 1:104:104 2:92:92 3:92:92 = 3 unread Source
3 1:104:104 2:130:130 3:92:92 = 2 Diverged";

#[test]
fn a_reader_that_fails_ends_the_choice(rt: HostRuntime) {
    expect_lines::<Failing>(&rt, FAILING);
}

/// Returns the numbers in a word; `-` is none.
fn numbers_in(rt: &(impl Alloc<A = Global> + Abort), word: &str) -> Vec<u64> {
    let mut numbers = Vec::new(rt.alloc());
    for number in word.split(',') {
        if number != "-" {
            numbers
                .push(number_in(rt, number))
                .ok()
                .expect(rt, "memory");
        }
    }
    numbers
}

/// Returns a list of numbers in words.
fn list_words(alloc: Global, numbers: &[u64]) -> Result<String, AllocError> {
    let numbers = numbers.to_vec(alloc)?;
    format!(in alloc; "{numbers:?}")
}

/// Returns a plan in words.
fn plan_words(alloc: Global, plan: &StartPlan<'_>) -> Result<String, AllocError> {
    let before = list_words(alloc, plan.before)?;
    let after = list_words(alloc, plan.after)?;
    if let Some(twice) = plan.twice {
        return format!(in alloc; "{before} {after}, {twice} twice");
    }
    match plan.alone() {
        Some(alone) => format!(in alloc; "{before} {after}, {alone} alone"),
        None => format!(in alloc; "{before} {after}"),
    }
}

/// The journal to discard, the retired ones, and those of the folder.
struct Plans;

impl Judge for Plans {
    fn judge(rt: &(impl Alloc<A = Global> + Abort), given: &str, wanted: &str) {
        let (past, words) = split(given);
        let (old, here) = split(words);
        let (old, here) = (numbers_in(rt, old), numbers_in(rt, here));
        let past = past.parse::<u64>().ok();
        let words = match plan(here.as_slice(), old.as_slice(), past) {
            Ok(plan) => plan_words(rt.alloc(), &plan),
            Err(NotPast) => format!(in rt.alloc(); "NotPast"),
        };
        expect_words(rt, words, wanted);
    }
}

/// Which journals a start chooses among.
const PLANS: &str = "- - - = [] []
- - 1 = [1] [], 1 alone
- 1,2 3,4,5 = [3, 4, 5] []
4 - 3,4,5 = [3] [5]
3 2 3,4,5 = [] [4, 5]
3 - 3,4 = [] [4], 4 alone
0 - 0,1,2 = [] [1, 2]
5 - 3,4,5 = NotPast
6 - 3,4,5 = NotPast
2 2 3,4,5 = NotPast
3 - 3 = NotPast
4 - - = NotPast
- 3,4 4,5 = [4, 5] [], 4 twice
- 4,3 3,4,5 = [3, 4, 5] [], 3 twice
4 4 3,4,5 = [3] [5], 4 twice
4 5 3,4,5 = [3] [5], 5 twice
- 4 4 = [4] [], 4 twice";

#[test]
fn a_start_chooses_among_all_journals_except_a_discarded_one(rt: HostRuntime) {
    expect_lines::<Plans>(&rt, PLANS);
}

/// Returns the table that continues the choice in a folder, over a sink that takes this number of
/// calls.
fn going_on(
    rt: &(impl Alloc<A = Global> + Abort),
    words: &str,
    calls: u64,
) -> Result<Table<MemorySink>, OpenFault> {
    let chosen = choose(rt.alloc(), files_of(rt, words), 0);
    let chosen = chosen.ok().expect(rt, "a choice");
    chosen.go_on(MemorySink::new(rt.alloc(), 4096, calls))
}

/// Checks the bytes in the sink of the table that continues the choice in a folder.
fn expect_going_on(rt: &(impl Alloc<A = Global> + Abort), words: &str, wanted: &[u8]) {
    let table = going_on(rt, words, 1).ok().expect(rt, "a journal");
    expect_that(rt, table.sink().bytes() == wanted, words);
}

/// Folders whose choices give the same base.
const OF_ONE_BASE: &str = "1:104:104
1:130:130
1:104:104 2:92:50
1:104:104 2:92:92";

#[test]
fn the_next_journal_has_the_base_of_the_chosen_one(rt: HostRuntime) {
    let wanted = journal_bytes(&rt, "92");
    for words in OF_ONE_BASE.lines() {
        expect_going_on(&rt, words, wanted.as_slice());
    }
    assert!(rt; going_on(&rt, "1:104:104", 0).err() == Some(OpenFault::SinkFault));
}

/// Names of files, and the number of each that is a journal's name.
const NAMES: &str = "journal-0000000042.tfj 42
journal-0000000000.tfj 0
journal-9999999999.tfj 9999999999
journal-42.tfj -
journal-00000000042.tfj -
journal-000000004x.tfj -
journal-000000004/.tfj -
journal-000000004:.tfj -
journal-0000000042.tfk -
Journal-0000000042.tfj -
journal-0000000042.tfj.part -";

#[test]
fn names_of_22_bytes_are_those_of_journals(rt: HostRuntime) {
    for line in NAMES.lines() {
        let (name, number) = split(line);
        expect_that(&rt, number_of(name) == number.parse::<u64>().ok(), line);
    }
}

/// Checks the name of a number; `-` means none.
fn expect_name(rt: &(impl Alloc<A = Global> + Abort), number: u64, wanted: &str) {
    match name_of(rt.alloc(), number).expect(rt, "memory") {
        Some(name) => expect_text(rt, name.as_str(), wanted),
        None => expect_text(rt, "-", wanted),
    }
}

#[test]
fn numbers_of_ten_digits_have_a_name(rt: HostRuntime) {
    expect_name(&rt, 0, "journal-0000000000.tfj");
    expect_name(&rt, 42, "journal-0000000042.tfj");
    expect_name(&rt, 9_999_999_999, "journal-9999999999.tfj");
    expect_name(&rt, 10_000_000_000, "-");
    expect_name(&rt, u64::MAX, "-");
}
