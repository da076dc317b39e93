//! What a line asks for.

use crate::business::{Business, LineFault, read_entity};
use crate::input::LONGEST;
use activities::Handler;
use base::Entity;
use std::alloc::Global;
use text::read_number;

/// What a line asks for.
#[derive(Drop)]
pub enum Ask<C: Drop> {
    /// Nothing: it is empty, or a comment.
    Nothing,
    /// A command of this service to one of its entities.
    Command(Entity, C),
    /// The row of an entity.
    Show(Entity),
    /// That the connections that aren't open are opened now.
    Connect,
    /// How far the service has come.
    Status,
    /// To wait until the journal has so many rows.
    Await(u64),
    /// It is no line of this service.
    Refused(LineFault),
}

/// Reads a line that asks to wait.
fn read_await<C: Drop>(rows: &str) -> Ask<C> {
    match read_number(rows) {
        Some(rows) => Ask::Await(rows),
        None => Ask::Refused(LineFault::Unreadable),
    }
}

/// Reads a line that asks for a row.
fn read_show<C: Drop>(alloc: Global, entity: &str) -> Ask<C> {
    match read_entity(alloc, entity) {
        Ok(entity) => Ask::Show(entity),
        Err(fault) => Ask::Refused(fault),
    }
}

/// Reads a line that is a command of the business, or none at all.
fn read_command<H: Handler, B: Business<H>>(alloc: Global, line: &str) -> Ask<H::Command> {
    match B::read_command(alloc, line) {
        Ok((entity, command)) => Ask::Command(entity, command),
        Err(fault) => Ask::Refused(fault),
    }
}

/// Reads a line of text.
fn read_text<H: Handler, B: Business<H>>(alloc: Global, line: &str) -> Ask<H::Command> {
    if line.is_empty() || line.starts_with('#') {
        return Ask::Nothing;
    }
    match line.split_once(' ') {
        // Before the business is asked: no business can take these words over.
        None if line == "connect" => Ask::Connect,
        None if line == "status" => Ask::Status,
        Some(("await", rows)) => read_await(rows),
        Some(("show", entity)) => read_show(alloc, entity),
        _ => read_command::<H, B>(alloc, line),
    }
}

/// Reads a line that is too long, of which only a beginning may be there: it's nothing where that begins a comment.
fn read_beginning<C: Drop>(line: &[u8]) -> Ask<C> {
    match line.first() {
        Some(b'#') => Ask::Nothing,
        _ => Ask::Refused(LineFault::Unreadable),
    }
}

/// Reads a line, without the LF that ends it.
pub fn read_ask<H: Handler, B: Business<H>>(alloc: Global, line: &[u8]) -> Ask<H::Command> {
    // First the length: what is kept of a longer line may end within a character.
    if line.len() > LONGEST {
        return read_beginning(line);
    }
    match str::from_utf8(line) {
        Ok(line) => read_text::<H, B>(alloc, line),
        Err(_) => Ask::Refused(LineFault::Unreadable),
    }
}
