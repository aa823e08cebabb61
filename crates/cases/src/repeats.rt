// REPEAT 255 of a body of REPEAT 254 of a bare END, with FETCH commands behind it.

// Makes the table of bytes that are 0: two for each FETCH, and ten for the rest.
pub fn repeats(table: &mut [u8]) {
    if table.len() < 10 {
        return;
    }
    let tail = table.len() - 6;
    table[..4].copy_from_slice(&[3, 7, 255, 1]);
    for k in (4..tail).step_by(2) {
        table[k] = 0x0D;
    }
    table[tail..].copy_from_slice(&[0, 7, 254, 2, 0, 0]);
}
