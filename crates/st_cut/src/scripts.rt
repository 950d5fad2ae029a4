//! Cutting a whole script.

ghost use Rattle.std.specs.Prelude.{◌≡◌, ◌≤◌, ◌++◌, ◌∷◌, [], ℕ, List, IfOk, OnOk, length};
ghost use Rattle.st_cut.specs.Cut.{IsCut};
ghost use Rattle.st_cut.specs.Seen.{Cutting, ShowsText, texts};

use crate::cutters::Cutter;
use ct_base::Memory;
use std::alloc::Global;

/// Adds a text, where it is given.
fn push_text(alloc: Global, items: &mut Vec<Vec<u8>>, text: Option<&[u8]>) -> Result<(), Memory>
    ensures { OnOk result ((limit : ℕ) (shown : List ℕ) → ShowsText limit text.entry shown → length shown ≤ limit
        → texts items.new.items ≡ texts items.old.items ++ shown ∷ []) }
{
    let Some(text) = text else {
        return Ok(());
    };
    items.push(Vec::from_slice(alloc, text)?)?;
    Ok(())
}

/// Takes a byte of a script of at most `limit` bytes.
fn cut_byte(
    alloc: Global,
    items: &mut Vec<Vec<u8>>,
    cutter: &mut Cutter,
    byte: u8,
) -> Result<(), Memory>
    ensures { OnOk result ((limit : ℕ) (script : List ℕ) → length script ≤ limit → Cutting limit script (texts items.old.items) cutter.old
        → Cutting limit (script ++ byte ∷ []) (texts items.new.items) cutter.new) }
{
    if byte == b'\n' && cutter.is_ending() {
        push_text(alloc, items, cutter.statement())?;
        cutter.clear();
    } else {
        cutter.push(byte);
    }
    Ok(())
}

/// Takes the end of a script of at most `limit` bytes.
fn cut_end(alloc: Global, items: &mut Vec<Vec<u8>>, cutter: &Cutter) -> Result<(), Memory>
    ensures { OnOk result ((limit : ℕ) (script : List ℕ) → length script ≤ limit → Cutting limit script (texts items.old.items) cutter.now
        → IsCut script (texts items.new.items)) }
{
    if cutter.is_ending() {
        push_text(alloc, items, cutter.statement())?;
        push_text(alloc, items, Some(b""))?;
        return Ok(());
    }
    push_text(alloc, items, cutter.rest())?;
    Ok(())
}

/// Cuts a whole script: its statements, each without its `;`, and as the last item what follows them.
/// Its cost is the length of the script.
pub fn cut(alloc: Global, script: &[u8]) -> Result<Vec<Vec<u8>>, Memory>
    ensures { IfOk result (λ items. IsCut script.now (texts items.items)) }
{
    let mut cutter = Cutter::new(alloc, script.len())?;
    let mut items = Vec::new(alloc);
    for byte in script {
        cut_byte(alloc, &mut items, &mut cutter, *byte)?;
    }
    cut_end(alloc, &mut items, &cutter)?;
    Ok(items)
}

/// A script is cut in exactly one way.
pub fn one_cut()
    ensures one { (script : List ℕ) → (items : List (List ℕ)) × IsCut script items }
    ensures only { (script : List ℕ) (items others : List (List ℕ)) → IsCut script items → IsCut script others → items ≡ others }
{}
