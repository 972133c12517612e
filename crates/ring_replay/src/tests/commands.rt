//! Runs of commands.

use super::items::Maker;
use super::player::{Done, Player};
use ringbuffer::{Command, Reply, RingBuffer, run, run_into};
use std::alloc::AllocError;

/// Makes a run of four commands, and notes what each is replied.
pub fn play<T: Clone + Drop, M: Maker<T>, R: RingBuffer<T>>(
    ring: &mut R,
    player: &mut Player<M>,
) -> Done {
    let mut commands = Vec::new(player.alloc);
    let mut replies = Vec::new(player.alloc);
    for _ in 0..4 {
        commands.push(draw(player)?)?;
        replies.push(None)?;
    }
    if player.flip() {
        let Ok(replies) = run(player.alloc, ring, commands) else {
            return Err(AllocError);
        };
        for reply in replies {
            note(Some(reply), player);
        }
        return Ok(());
    }
    if replies.len() != commands.len() || run_into(ring, commands, &mut replies).is_err() {
        return Err(AllocError);
    }
    for reply in replies {
        note(reply, player);
    }
    Ok(())
}

/// Draws a command.
fn draw<T: Drop, M: Maker<T>>(player: &mut Player<M>) -> Result<Command<T>, AllocError> {
    Ok(match player.up_to(15) {
        0 => Command::Clear,
        1..=2 => Command::Extend(player.items()?),
        3..=5 => Command::Skip,
        6..=9 => Command::Dequeue,
        _ => Command::Push(player.item()),
    })
}

/// Notes a reply, and its kind.
fn note<T: Drop, M: Maker<T>>(reply: Option<Reply<T>>, player: &mut Player<M>) {
    match reply {
        Some(Reply::Pushed(old)) => {
            player.note(1);
            player.note_taken(old);
        }
        Some(Reply::Dequeued(item)) => {
            player.note(2);
            player.note_taken(item);
        }
        Some(Reply::Extended) => player.note(3),
        Some(Reply::Skipped) => player.note(4),
        Some(Reply::Cleared) => player.note(5),
        None => player.note(6),
    }
}
