//! Copies of conditions, and of what rows are ordered by.
#![tactic(auto)]

ghost use Rattle.std.specs.Prelude.{◌≡◌, IfOk};

use ct_base::{Listed, Memory, Text};
use st_parse::{Cond, Item, Operand, OrderItem};
use std::alloc::Global;

fn copy_operand(alloc: Global, operand: &Operand) -> Result<Operand, Memory>
    ensures { IfOk result (λ copy. copy ≡ operand.now) }
{
    match operand {
        Operand::Text(text) => Ok(Operand::Text(Text::of(alloc, text.as_str())?)),
        Operand::Number(number) => Ok(Operand::Number(*number)),
    }
}

fn copy_operands(alloc: Global, operands: &[Operand]) -> Result<Vec<Operand>, Memory>
    ensures { IfOk result (λ copies. copies.items ≡ operands.now) }
{
    let mut copies = Vec::new(alloc);
    for operand in operands {
        copies.push(copy_operand(alloc, operand)?)?;
    }
    Ok(copies)
}

/// The same condition. Its cost is the number of its bytes.
pub(crate) fn copy_cond(alloc: Global, cond: &Cond) -> Result<Cond, Memory>
    ensures { IfOk result (λ copy. copy ≡ cond.now) }
{
    match cond {
        Cond::Compare { column, op, value } => {
            let column = column.clone()?;
            let value = copy_operand(alloc, value)?;
            Ok(Cond::Compare {
                column,
                op: *op,
                value,
            })
        }
        Cond::Between { column, low, high } => {
            let column = column.clone()?;
            let low = copy_operand(alloc, low)?;
            let high = copy_operand(alloc, high)?;
            Ok(Cond::Between { column, low, high })
        }
        Cond::OneOf { column, values } => {
            let column = column.clone()?;
            let values = Listed::of(copy_operands(alloc, values.as_slice())?);
            Ok(Cond::OneOf { column, values })
        }
    }
}

fn copy_item(item: &Item) -> Result<Item, Memory>
    ensures { IfOk result (λ copy. copy ≡ item.now) }
{
    match item {
        Item::Column(name) => Ok(Item::Column(name.clone()?)),
        Item::Score(label) => Ok(Item::Score(*label)),
    }
}

/// The same item. Its cost is the number of its bytes.
pub(crate) fn copy_order(order: &OrderItem) -> Result<OrderItem, Memory>
    ensures { IfOk result (λ copy. copy ≡ order.now) }
{
    let item = copy_item(&order.item)?;
    Ok(OrderItem {
        item,
        down: order.down,
    })
}
