//! Pages that are changed in memory.

ghost use Rattle.std.specs.Prelude.{All, true, false, ◌≡◌, ◌≢◌, ◌<◌, ◌≤◌, ◌+◌, ◌^◌, IsTrue, IsFalse, IfOk, ◌++◌, ◌∷◌, [], OnOk, OnErr, length, get_or, set};
ghost use Rattle.pg_map.specs.Kinds.{Free};
ghost use Rattle.pg_window.specs.Sheets.{sheet_kind, sheet_kinds, is_away};
ghost use Rattle.pg_window.specs.Windows.{away_of};
ghost use Rattle.pg_plan.specs.Drafts.{sheet_kept, undone, touched_by, shown, with_free_page, with_page, with_touched, EndsWith, IsHere, NotesPage, SeesNone, StaysAway};
ghost use Rattle.pg_plan.specs.DraftFields.{AreOnSheets};
ghost use Rattle.pg_plan.specs.Touched.{AreSortedOnce, AreTouched, TouchesOne, numbers_at};

use ct_base::Memory;
use pg_window::Sheet;
use std::alloc::Global;
use std::marker::Model;
use std::mem::replace;

/// What a page was before it was changed. Nothing is kept of one that was free, nor of one that the batch has added.
#[derive(Debug, Drop)]
pub(crate) struct Note {
    at: usize,
    old: Option<Sheet>,
}

/// Pages behind the root that are changed one by one, and can go back to what they were without taking memory. Some of them may not be in
/// memory: they are as pages of entries that have none, and nothing but `give_page` changes them. A change takes 40 bytes beside its page.
#[derive(Debug, Drop)]
pub struct Draft {
    sheets: Vec<Sheet>,
    notes: Vec<Note>,
    /// How many pages there were.
    before: usize,
}

impl Model for Draft {
    ghost use Rattle.pg_plan.specs.Drafts.{Drafted};
    ghost use Rattle.pg_plan.specs.DraftFields.{drafted, IsDraft};

    ghost Value = { Drafted };

    ghost view = { drafted };

    ghost invariant = { IsDraft };
}

impl Draft {
    /// Begins with pages as they are. It takes no memory.
    pub fn begin(alloc: Global, sheets: Vec<Sheet>) -> Draft
        ensures { result ≡ record { before = shown sheets.items; now = sheet_kinds sheets.items; away = away_of sheets.items; touched = [] } }
    {
        let before = sheets.len();
        Draft {
            sheets,
            notes: Vec::new(alloc),
            before,
        }
    }

    /// Puts a page in place of another one.
    pub(crate) fn set(&mut self, at: usize, sheet: Sheet) -> Result<(), Memory>
        requires { at < length self.old.now }
        ensures ok { OnOk result (self.new ≡ with_touched (with_page self.old at sheet) at) }
        ensures stays { IsHere self.old at → is_away sheet ≡ false → OnOk result (StaysAway self.old self.new) }
        ensures err { OnErr result (self.new ≡ self.old) }
    {
        self.notes.reserve(1)?;
        let old = exchange(&mut self.sheets, self.before, at, sheet);
        let Ok(()) = self.notes.push(Note { at, old }) else {
            unreachable!()
        };
        Ok(())
    }

    /// Puts a page in place of another one, which is noted unless it was the one that was changed last.
    #[tactic(auto, using(crate::specs::laws::Touched::touches_last))]
    pub(crate) fn put(&mut self, at: usize, sheet: Sheet) -> Result<(), Memory>
        requires { at < length self.old.now }
        ensures before { self.new.before ≡ self.old.before }
        ensures now { OnOk result (self.new.now ≡ set self.old.now at (sheet_kind sheet)) }
        ensures away { OnOk result (self.new.away ≡ set self.old.away at (is_away sheet)) }
        ensures stays { IsHere self.old at → is_away sheet ≡ false → OnOk result (StaysAway self.old self.new) }
        ensures touches { length self.new.touched ≤ length self.old.touched + 1 }
        ensures last { EndsWith self.old.touched at → self.new.touched ≡ self.old.touched }
        ensures touched { OnOk result (TouchesOne self.old.touched self.new.touched at) }
        ensures notes { OnOk result (NotesPage self.old.touched self.new.touched at) }
        ensures err { OnErr result (self.new ≡ self.old) }
    {
        if self.is_last(at) {
            self.set_last(at, sheet);
            return Ok(());
        }
        self.set(at, sheet)
    }

    /// Whether the page at a place is the one that was changed last.
    fn is_last(&self, at: usize) -> bool
        ensures yes { IsTrue result → EndsWith self.now.touched at }
        ensures no { IsFalse result → EndsWith self.now.touched at → ⊥ }
    {
        match self.notes.last() {
            Some(note) => note.at == at,
            None => false,
        }
    }

    /// Puts a page in place of the one that was changed last. It takes no memory: what was there first is noted.
    fn set_last(&mut self, at: usize, sheet: Sheet)
        requires within { at < length self.old.now }
        requires last { EndsWith self.old.touched at }
        ensures is { self.new ≡ with_page self.old at sheet }
        ensures stays { IsHere self.old at → is_away sheet ≡ false → StaysAway self.old self.new }
    {
        self.sheets[at] = sheet;
    }

    /// One page more, a free one.
    pub(crate) fn grow(&mut self) -> Result<(), Memory>
        ensures ok { OnOk result (self.new ≡ with_free_page self.old) }
        ensures stays { StaysAway self.old self.new }
        ensures err { OnErr result (self.new ≡ self.old) }
    {
        self.notes.reserve(1)?;
        let at = self.sheets.len();
        self.sheets.push(Sheet::Free)?;
        let Ok(()) = self.notes.push(Note { at, old: None }) else {
            unreachable!()
        };
        Ok(())
    }

    /// A page.
    pub fn sheet(&self, at: usize) -> &Sheet
        requires { at < length self.now.now }
        ensures kind { sheet_kind result.now ≡ get_or self.now.now at Free }
        ensures away { is_away result.now ≡ get_or self.now.away at false }
    {
        &self.sheets[at]
    }

    /// What each draft keeps to: it has no fewer pages than it began with, and one that isn't in memory is seen as a page of entries that
    /// has none. It does nothing.
    pub fn keep_shape(&self)
        ensures sees { SeesNone self.now }
        ensures grown { length self.now.before.kinds ≤ length self.now.now }
    {
        let _ = &self.sheets;
    }

    /// How many pages there are.
    pub fn count(&self) -> usize
        ensures { result ≡ length self.now.now }
    {
        self.sheets.len()
    }

    /// How many changes are noted. A page that was changed more than once may count as often.
    pub fn noted(&self) -> usize
        ensures { result ≡ length self.now.touched }
    {
        self.notes.len()
    }

    /// The numbers of the pages that were changed, in order and each once. It takes four bytes a change.
    pub fn touched_numbers(&self, alloc: Global) -> Result<Vec<u32>, Memory>
        requires { 3 + length self.now.now ≤ 2 ^ 31 }
        ensures { IfOk result (λ numbers. AreTouched self.now numbers.items) }
    {
        let mut numbers = numbers_of(alloc, &self.notes)?;
        sort_once(&mut numbers);
        Ok(numbers)
    }

    /// The pages as they are now.
    pub fn finish(self) -> Vec<Sheet>
        ensures kinds { sheet_kinds result.items ≡ self.now }
        ensures away { away_of result.items ≡ self.away }
    {
        self.sheets
    }

    /// The pages as they were. It takes no memory.
    pub fn roll_back(self) -> Vec<Sheet>
        ensures { shown result.items ≡ self.before }
    {
        let mut sheets = self.sheets;
        let mut notes = self.notes;
        undo(&mut sheets, &mut notes);
        sheets.truncate(self.before);
        sheets
    }
}

/// The numbers of the pages of these notes; one that was changed twice comes twice.
fn numbers_of(alloc: Global, notes: &[Note]) -> Result<Vec<u32>, Memory>
    requires { All (λ note. note.at + 3 < 2 ^ 31) notes.now }
    ensures { IfOk result (λ numbers. numbers.items ≡ numbers_at (touched_by notes.now)) }
{
    let mut numbers = Vec::new(alloc);
    for note in notes {
        numbers.push(note.at as u32 + 3)?;
    }
    Ok(numbers)
}

/// Puts numbers in order, each once. It takes no memory.
fn sort_once(numbers: &mut Vec<u32>)
    ensures { AreSortedOnce numbers.old.items numbers.new.items }
{
    numbers.sort_unstable();
    numbers.dedup();
}

/// Whether a page is free.
pub(crate) fn is_free(sheet: &Sheet) -> bool
    ensures free { result ≡ true → sheet.now ≡ Sheet.Free }
    ensures used { result ≡ false → sheet_kind sheet.now ≢ Free }
{
    match sheet {
        Sheet::Free => true,
        _ => false,
    }
}

/// Puts a page in place of another one, and gives what is to be kept of that: nothing where it was free, or behind the first so many. It
/// takes no memory.
fn exchange(sheets: &mut Vec<Sheet>, before: usize, at: usize, sheet: Sheet) -> Option<Sheet>
    requires { at < length sheets.old.items }
    ensures put { sheets.new.items ≡ set sheets.old.items at sheet }
    ensures kept { at < before → sheet_kept result ≡ get_or sheets.old.items at Sheet.Free }
{
    if at >= before || is_free(&sheets[at]) {
        put_sheet(sheets, at, sheet);
        return None;
    }
    Some(replace(&mut sheets[at], sheet))
}

/// The page that was kept.
fn kept_sheet(old: Option<Sheet>) -> Sheet
    ensures { result ≡ sheet_kept old }
{
    match old {
        Some(sheet) => sheet,
        None => Sheet::Free,
    }
}

/// Undoes changes, the last of them first.
fn undo(sheets: &mut Vec<Sheet>, notes: &mut Vec<Note>)
    requires { AreOnSheets notes.old.items sheets.old.items }
    ensures { sheets.new.items ≡ undone notes.old.items sheets.old.items }
{
    while let Some(note) = notes.pop() {
        put_sheet(sheets, note.at, kept_sheet(note.old));
    }
}

/// Puts a page in place of another one.
fn put_sheet(sheets: &mut Vec<Sheet>, at: usize, sheet: Sheet)
    requires { at < length sheets.old.items }
    ensures { sheets.new.items ≡ set sheets.old.items at sheet }
{
    sheets[at] = sheet;
}
