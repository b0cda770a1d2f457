//! Indices in names: in a model `split[1][3]` is the plain name `split_1_3`.

// How many bytes at the end of a name are an index: `_`, and a number. 0 if none are.
fn index_length(name: &[u8]) -> usize {
    let is_digit = |byte: &u8| byte.is_ascii_digit();
    let digits = name.iter().rev().take_while(|byte| is_digit(*byte)).count();
    let length = digits.saturating_add(1);
    match name.get(name.len().saturating_sub(length)..) {
        Some([b'_', b'0', _, ..]) => 0,
        Some([b'_', _, ..]) if name.len() > length => length,
        _ => 0,
    }
}

/// How many indices a plain name has at its end.
pub fn index_count(name: &[u8]) -> usize {
    let indices = name.get(base_length(name)..).unwrap_or(&[]);
    indices.iter().filter(|byte| **byte == b'_').count()
}

/// How many bytes of a plain name come before the indices at its end.
pub(crate) fn base_length(name: &[u8]) -> usize {
    let mut length = name.len();
    for _ in name {
        let index = index_length(name.get(..length).unwrap_or(name));
        if index == 0 {
            break;
        }
        length = length.saturating_sub(index);
    }
    length
}
