use als_record::Fault;
use std::alloc::Global;

/// What a shipper of a log before which there was no takeover sends from an offset on: its history,
/// Data frames of so many bytes, at most 65,536, and the last one, which has none.
pub fn frames(alloc: Global, text: &[u8], from: usize, piece: usize) -> Result<Vec<u8>, Fault> {
    let mut sent = Vec::new(alloc);
    sent.extend_from_slice(b"E\0\0\0\0")?;
    let mut offset = from;
    for bytes in text.get(from..).unwrap_or(&[]).chunks(piece.max(1)) {
        put_frame(&mut sent, offset, bytes)?;
        offset = offset.saturating_add(bytes.len());
    }
    put_frame(&mut sent, offset, &[])?;
    Ok(sent)
}

fn put_frame(sent: &mut Vec<u8>, offset: usize, bytes: &[u8]) -> Result<(), Fault> {
    let length = u32::try_from(bytes.len()).unwrap_or(u32::MAX);
    sent.extend_from_slice(b"F\0\0\0\0")?;
    sent.extend_from_slice(&(offset as u64).to_be_bytes())?;
    sent.extend_from_slice(&length.to_be_bytes())?;
    sent.extend_from_slice(bytes)?;
    Ok(())
}
