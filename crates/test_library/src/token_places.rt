// Where tokens are in a text, and kinds that no supported text can show.

use il_syntax::token::{Kind, Sign, Token};
use load_tokens::tokens;

static WANTED: [(u32, u32, Kind); 11] = [
    (0, 2, Kind::Word),
    (3, 4, Kind::Word),
    (4, 6, Kind::Number(-5)),
    (16, 17, Kind::LineEnd),
    (17, 19, Kind::Word),
    (20, 21, Kind::Word),
    (21, 22, Kind::Sign(Sign::OpenBracket)),
    (22, 23, Kind::Number(1)),
    (23, 24, Kind::Sign(Sign::CloseBracket)),
    (25, 27, Kind::Sign(Sign::Arrow)),
    (28, 39, Kind::Number(-4_294_967_295)),
];

// Whether these are all tokens, with their places and kinds.
fn are(found: &[Token], wanted: &[(u32, u32, Kind)]) -> bool {
    if found.len() != wanted.len() {
        return false;
    }
    for at in 0..found.len() {
        let token = &found[at];
        if (token.start, token.end, token.kind) != wanted[at] {
            return false;
        }
    }
    true
}

#[test]
fn places_tokens(rt: HostRuntime) {
    let Ok(found) = tokens(rt.alloc(), b"LD A-5 (* a\nb *)\nST B[1] => -4294967295") else {
        panic!(&rt; "no tokens")
    };
    assert!(rt; are(&found, &WANTED));
}
