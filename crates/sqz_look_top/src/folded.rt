//! Rows as folded stacks.

use crate::rows::Row;
use sqz_image::Sink;
use sqz_look_view::{Out, PrintError};
use std::alloc::{AllocError, Global};

/// Prints a line for each row with bytes that no row below it retains: the labels from the first
/// row to it, joined by `;`, and the number of these bytes. The numbers add up to what the first
/// row retains.
pub(crate) fn print_folded<C: Sink>(
    alloc: Global,
    rows: &[Row],
    out: &mut Out<'_, C>,
) -> Result<(), PrintError> {
    let mut path = Vec::new(alloc);
    for row in rows {
        path.truncate(row.depth);
        path.push(row.label.as_str())?;
        if row.apart > 0 {
            out.text("stack", stack_of(alloc, &path));
            out.number("bytes", row.apart);
            out.line("{stack} {bytes}");
        }
    }
    out.end()
}

/// Returns labels joined by `;`.
fn stack_of(alloc: Global, labels: &[&str]) -> Result<String, AllocError> {
    let mut stack = String::new(alloc);
    for label in labels {
        if !stack.is_empty() {
            stack.push(';')?;
        }
        push_frame(&mut stack, label)?;
    }
    Ok(stack)
}

/// Adds a label to a stack. What would end it becomes `,` or a space.
fn push_frame(stack: &mut String, label: &str) -> Result<(), AllocError> {
    for character in label.chars() {
        stack.push(match character {
            ';' => ',',
            character if character.is_control() => ' ',
            character => character,
        })?;
    }
    Ok(())
}
