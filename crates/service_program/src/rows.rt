//! The lines that show rows.

ghost use Rattle.std.specs.Prelude.{◌≡◌, ◌++◌, string_bytes, IfOk, OnOk};
ghost use Rattle.std.specs.List.{flat_map};
ghost use Rattle.schedule_text.specs.Outcomes.{shown_entity};
ghost use Rattle.service_program.specs.Rows.{on_one_line, row_line, IsRow};

use crate::business::Business;
use activities::Handler;
use base::Entity;
use schedule_shows::push_entity;
use std::alloc::{AllocError, Global};
use std::slice::from_ref;

/// An entity's text, as lines have it: what a word can't have has its escape, so that it can be read as a word.
///
/// # Errors
/// Where an allocation failed.
pub fn show_entity(alloc: Global, entity: &Entity) -> Result<String, AllocError>
    ensures { IfOk result (λ text. string_bytes text ≡ shown_entity entity.now) }
{
    let mut octets = Vec::new(alloc);
    push_entity(&mut octets, entity)?;
    match str::from_utf8(octets.as_slice()) {
        Ok(text) => String::from_str(alloc, text),
        // An entity's text is UTF-8, and escapes are ASCII.
        Err(_) => Err(AllocError),
    }
}

/// How an octet of a state's words is printed.
fn on_one_line(octet: &u8) -> &[u8]
    ensures { result.now ≡ on_one_line octet.now }
{
    match *octet {
        b'\n' => b"\\n",
        _ => from_ref(octet),
    }
}

/// Appends words of a state. An LF of theirs would end the line.
#[tactic(auto, using(crate::proofs::StateWords::words_more, std::proofs::Common::append_assoc))]
fn push_words(line: &mut Vec<u8>, words: &str) -> Result<(), AllocError>
    ensures { OnOk result (line.new.items ≡ line.old.items ++ flat_map on_one_line words.now) }
{
    for octet in words.as_bytes() {
        line.extend_from_slice(on_one_line(octet))?;
    }
    Ok(())
}

/// The line of `show` of an entity whose state has these words.
///
/// # Errors
/// Where an allocation failed.
#[tactic(auto, using(std::proofs::Common::append_assoc))]
fn show_words(alloc: Global, entity: &Entity, words: &str) -> Result<Vec<u8>, AllocError>
    ensures { IfOk result (λ line. line.items ≡ row_line entity.now words.now) }
{
    let mut line = Vec::new(alloc);
    push_entity(&mut line, entity)?;
    // The line begins with the entity that was asked for, whatever the words of the state are.
    line.push(b' ')?;
    push_words(&mut line, words)?;
    line.push(b'\n')?;
    Ok(line)
}

/// The line of `show`: an entity, and its state's words, or `none` where it has no row.
///
/// # Errors
/// Where an allocation failed.
pub fn show_row<H: Handler, B: Business<H>>(
    alloc: Global,
    entity: &Entity,
    row: &Option<H::State>,
) -> Result<Vec<u8>, AllocError>
    ensures { IfOk result (λ line. IsRow entity.now row.now line.items) }
{
    match row {
        Some(state) => show_words(alloc, entity, &B::show_state(alloc, state)?),
        None => show_words(alloc, entity, "none"),
    }
}
