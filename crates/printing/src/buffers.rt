// Lent buffers: filled, copied and compared.

// Fills the bytes so that byte k holds k % 251.
pub fn number_bytes(bytes: &mut [u8]) {
    for (k, byte) in bytes.iter_mut().enumerate() {
        *byte = (k % 251) as u8;
    }
}

// Puts a piece into a page from byte `at` on; nothing if it does not fit.
pub fn put_bytes(page: &mut [u8], at: usize, piece: &[u8]) {
    let Some(end) = at.checked_add(piece.len()) else {
        return
    };
    if let Some(space) = page.get_mut(at..end) {
        space.copy_from_slice(piece);
    }
}

// The first byte that changed, if one did. A byte behind the end of `before` is another one than before.
pub fn first_changed(before: &[u8], after: &[u8]) -> Option<usize> {
    (0..after.len()).find(|&k| before.get(k) != after.get(k))
}

// The last byte that changed, if one did.
pub fn last_changed(before: &[u8], after: &[u8]) -> Option<usize> {
    (0..after.len()).rfind(|&k| before.get(k) != after.get(k))
}
