//! The recorded streams of a session.
use crate::nodes::{
    RowEnds, RowPrimary, RowSecondary, open_primary, open_secondary, submit, work_primary,
    work_secondary,
};
use blocks::Refusal;
use std::alloc::Global;
use std::sync::Wait;
use thread_link::{PIECE_BYTES, Piece, PieceIn, PieceOut, Sheet};

/// More turns than both nodes need until they are idle.
const TURNS: u32 = 400;

/// The bytes that went from the primary to the secondary, and back.
#[derive(Drop)]
pub(crate) struct Recorded {
    pub(crate) there: Vec<u8>,
    pub(crate) back: Vec<u8>,
}

impl Recorded {
    /// Records a session in which all blocks are copied while writes go on.
    pub(crate) fn new<R: Wait + Copy + Drop>(rt: R, alloc: Global) -> Result<Recorded, Refusal> {
        match open_primary(rt, alloc) {
            Ok(mut primary) => Recorded::of(rt, alloc, &mut primary),
            Err(refusal) => Err(refusal),
        }
    }

    // Records a session of this primary.
    fn of<R: Wait + Copy + Drop>(
        rt: R,
        alloc: Global,
        primary: &mut (RowPrimary<R>, RowEnds<R>),
    ) -> Result<Recorded, Refusal> {
        let mut recorded = Recorded {
            there: Vec::new(alloc),
            back: Vec::new(alloc),
        };
        match open_secondary(rt, alloc) {
            Ok(mut secondary) => recorded.record(alloc, primary, &mut secondary)?,
            Err(refusal) => return Err(refusal),
        }
        Ok(recorded)
    }

    // Has both nodes do what they can, and records what goes over the link.
    fn record<R: Wait + Drop>(
        &mut self,
        alloc: Global,
        primary: &mut (RowPrimary<R>, RowEnds<R>),
        secondary: &mut (RowSecondary<R>, RowEnds<R>),
    ) -> Result<(), Refusal> {
        let mut write = 0u64;
        for _ in 0..TURNS {
            write = submit(alloc, &mut primary.0, write)?;
            work_primary(&mut primary.0);
            carry(
                &mut primary.1.sent,
                &mut secondary.1.to_take,
                &mut self.there,
            )?;
            let _ = secondary.0.receive();
            work_secondary(&mut secondary.0);
            carry(
                &mut secondary.1.sent,
                &mut primary.1.to_take,
                &mut self.back,
            )?;
            let _ = primary.0.ack_in();
        }
        Ok(())
    }
}

// Carries what one node sent to the row of the other one, and adds its bytes to `went`.
fn carry<R: Wait + Drop>(
    sent: &mut PieceIn<R>,
    to_take: &mut PieceOut<R>,
    went: &mut Vec<u8>,
) -> Result<(), Refusal> {
    for _ in 0..u32::MAX {
        match sent.pop() {
            Some(sheet) => pass_on(&sheet, to_take, went)?,
            None => break,
        }
    }
    Ok(())
}

// Lays the bytes of a frame into a row as pieces, and adds them to `went`.
fn pass_on<R: Wait + Drop>(
    sheet: &Sheet,
    to_take: &mut PieceOut<R>,
    went: &mut Vec<u8>,
) -> Result<(), Refusal> {
    let (front, blocks) = sheet.parts();
    for piece in front.chunks(PIECE_BYTES).chain(blocks.chunks(PIECE_BYTES)) {
        went.extend_from_slice(piece)?;
        lay(piece, to_take)?;
    }
    Ok(())
}

// Lays a piece into a row.
fn lay<R: Wait + Drop>(piece: &[u8], to_take: &mut PieceOut<R>) -> Result<(), Refusal> {
    if piece.is_empty() || piece.len() > PIECE_BYTES {
        return Err(Refusal::BadLength);
    }
    match to_take.push(Piece::new(piece)) {
        Ok(()) => Ok(()),
        Err(_) => Err(Refusal::LinkFull),
    }
}
