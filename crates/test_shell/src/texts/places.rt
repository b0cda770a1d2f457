//! Where the tokens of a plain text come from.

use crate::expecting::expect_same;
use notation::{expand, line_and_column};

const MODEL: &str = "const n = 2;
let f(v) = v + n;
process a[i: 1..n] {
  var x = i;
  for j: 3..4 {
    go: when x = j :
      x := f(j);
  }
}";

// The numbers of tokens of the plain text of `MODEL`, and the line and the column from which they come:
// process a_1 { var x = 1 ; when ( x = 3 ) : x := ( 3 + 2 ) ; ..
const TOKENS: &[(usize, usize, usize)] = &[
    (0, 3, 1),
    (1, 3, 9),
    (2, 3, 20),
    (3, 4, 3),
    (4, 4, 7),
    (6, 4, 11),
    (8, 6, 9),
    (9, 6, 14),
    (10, 6, 14),
    (11, 6, 16),
    (12, 6, 18),
    (14, 6, 20),
    (15, 7, 7),
    (16, 7, 9),
    (17, 2, 12),
    (18, 7, 14),
    (19, 2, 14),
    (20, 2, 16),
    (22, 7, 16),
];

#[test]
fn tokens_have_places(rt: HostRuntime) {
    let expansion = expand(rt.alloc(), MODEL.as_bytes());
    let expansion = expansion.ok().expect(&rt, "the model expands");
    for (token, line, column) in TOKENS {
        let at = expansion.source_of(*token).unwrap_or(0);
        let (found_line, found_column) = line_and_column(MODEL.as_bytes(), at);
        let found = [*token, found_line, found_column];
        expect_same(&rt, found, [*token, *line, *column]);
    }
}
