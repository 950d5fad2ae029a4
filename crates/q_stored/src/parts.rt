//! The parts of queries that stand in lists.

use crate::items::Item;
use crate::reading::{read_bit, read_key, read_slot, read_step};
use crate::writing::{put_bit, put_bytes, put_slot, put_step};
use ct_base::Memory;
use q_tree::{PatternBit, Slot, SumStep};
use std::alloc::Global;
use tx_chars::Key;

impl Item for Key {
    ghost use Rattle.ct_bytes.specs.Varints.{text_bytes};
    ghost use Rattle.ct_bytes.specs.laws.Varints.{text_apart};
    ghost use Rattle.tx_settings.specs.PrefsBytes.{is_short};
    ghost use Rattle.q_stored.specs.laws.Items.{some_text};

    ghost spelling = { text_bytes };

    ghost rule = { is_short };

    fn put(&self, out: &mut Vec<u8>) -> Result<bool, Memory> {
        put_bytes(out, self.as_slice())
    }

    fn read(alloc: Global, bytes: &[u8], at: usize) -> Result<Option<(Key, usize)>, Memory> {
        read_key(alloc, bytes, at)
    }

    ghost apart = { text_apart };

    ghost some = { some_text };
}

impl Item for PatternBit {
    ghost use Rattle.q_stored.specs.QueryBytes.{bit_tag, bit_body, bit_spelling, is_written_bit};
    ghost use Rattle.q_stored.specs.laws.Items.{some_tagged};
    ghost use Rattle.q_stored.specs.laws.Apart.{bits_apart};

    ghost spelling = { bit_spelling };

    ghost rule = { is_written_bit };

    fn put(&self, out: &mut Vec<u8>) -> Result<bool, Memory> {
        put_bit(out, self)
    }

    fn read(alloc: Global, bytes: &[u8], at: usize) -> Result<Option<(PatternBit, usize)>, Memory> {
        read_bit(alloc, bytes, at)
    }

    ghost apart = { bits_apart };

    ghost some = { some_tagged bit_tag bit_body };
}

impl Item for Slot {
    ghost use Rattle.q_stored.specs.QueryBytes.{slot_tag, slot_body, slot_spelling, is_written_slot};
    ghost use Rattle.q_stored.specs.laws.Items.{some_tagged};
    ghost use Rattle.q_stored.specs.laws.Apart.{slots_apart};

    ghost spelling = { slot_spelling };

    ghost rule = { is_written_slot };

    fn put(&self, out: &mut Vec<u8>) -> Result<bool, Memory> {
        put_slot(out, self)
    }

    fn read(alloc: Global, bytes: &[u8], at: usize) -> Result<Option<(Slot, usize)>, Memory> {
        read_slot(alloc, bytes, at)
    }

    ghost apart = { slots_apart };

    ghost some = { some_tagged slot_tag slot_body };
}

impl Item for SumStep {
    ghost use Rattle.q_stored.specs.QueryBytes.{step_tag, step_body, step_spelling, is_written_step};
    ghost use Rattle.q_stored.specs.laws.Items.{some_tagged};
    ghost use Rattle.q_stored.specs.laws.Apart.{steps_apart};

    ghost spelling = { step_spelling };

    ghost rule = { is_written_step };

    fn put(&self, out: &mut Vec<u8>) -> Result<bool, Memory> {
        put_step(out, self)
    }

    fn read(alloc: Global, bytes: &[u8], at: usize) -> Result<Option<(SumStep, usize)>, Memory> {
        read_step(bytes, at)
    }

    ghost apart = { steps_apart };

    ghost some = { some_tagged step_tag step_body };
}
