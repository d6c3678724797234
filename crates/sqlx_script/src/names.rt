//! The names of the events.
ghost use Rattle.std.specs.Prelude.{◌≡◌, ◌++◌, ◌∷◌, ◌≢◌, IfSome, IfNone, List, ℕ, slice_index};
ghost use Rattle.sqlx_script.specs.Names.{text_of};

/// What a line after the first is about, by its first word.
#[derive(Clone, Copy)]
pub enum Name {
    Ask,
    Poll,
    Cancel,
    Try,
    Give,
    End,
    Detach,
    Leak,
    Reap,
    Min,
    CloseState,
    Close,
    Begin,
    Custom,
    Put,
    Del,
    Get,
    Commit,
    Rollback,
    GiveUp,
}

// The first four bytes of each name and its blank, as one number, of which the first byte is the lowest.
const ASK: u32 = 0x206b_7361; // `ask `

const POLL: u32 = 0x6c6c_6f70; // `poll`

const CANC: u32 = 0x636e_6163; // `canc`

const TRY: u32 = 0x2079_7274; // `try `

const GIVE: u32 = 0x6576_6967; // `give`

const END: u32 = 0x2064_6e65; // `end `

const DETA: u32 = 0x6174_6564; // `deta`

const LEAK: u32 = 0x6b61_656c; // `leak`

const REAP: u32 = 0x7061_6572; // `reap`

const MIN: u32 = 0x206e_696d; // `min `

const CLOS: u32 = 0x736f_6c63; // `clos`

const BEGI: u32 = 0x6967_6562; // `begi`

const CUST: u32 = 0x7473_7563; // `cust`

const PUT: u32 = 0x2074_7570; // `put `

const DEL: u32 = 0x206c_6564; // `del `

const GET: u32 = 0x2074_6567; // `get `

const COMM: u32 = 0x6d6d_6f63; // `comm`

const ROLL: u32 = 0x6c6c_6f72; // `roll`

// This name and what stands behind it in a text, if the text begins with the end of the name and a blank.
#[inline(always)]
fn behind<'a>(name: Name, end: &[u8], text: &'a [u8]) -> Option<(Name, &'a [u8])>
    ensures name { IfSome result (λ r. r.0 ≡ name) }
    ensures some { IfSome result (λ r. text.now ≡ end.now ++ r.1.now) }
    ensures blank { IfSome result (λ r. slice_index r.1.now 0 ≡ 32) }
    ensures none { IfNone result ((rest : List ℕ) → text.now ≢ end.now ++ 32 ∷ rest) }
{
    if text.len() <= end.len() {
        return None;
    }
    for at in 0..end.len() {
        if text[at] != end[at] {
            return None;
        }
    }
    if text[end.len()] == b' ' {
        Some((name, &text[end.len()..]))
    } else {
        None
    }
}

/// The name in front of a text that has a blank behind it, and the text from that blank on.
#[inline(always)]
pub fn name_in_front(text: &[u8]) -> Option<(Name, &[u8])>
    ensures some { IfSome result (λ r. text.now ≡ text_of r.0 ++ r.1.now) }
    ensures blank { IfSome result (λ r. slice_index r.1.now 0 ≡ 32) }
    ensures none { IfNone result ((name : Name) → (rest : List ℕ) → text.now ≢ text_of name ++ 32 ∷ rest) }
{
    let [a, b, c, d, rest @ ..] = text else {
        return None;
    };
    match u32::from_le_bytes([*a, *b, *c, *d]) {
        ASK => Some((Name::Ask, &text[3..])),
        POLL => behind(Name::Poll, b"", rest),
        CANC => behind(Name::Cancel, b"el", rest),
        TRY => Some((Name::Try, &text[3..])),
        GIVE => match behind(Name::Give, b"", rest) {
            Some(found) => Some(found),
            None => behind(Name::GiveUp, b"up", rest),
        },
        END => Some((Name::End, &text[3..])),
        DETA => behind(Name::Detach, b"ch", rest),
        LEAK => behind(Name::Leak, b"", rest),
        REAP => behind(Name::Reap, b"", rest),
        MIN => Some((Name::Min, &text[3..])),
        CLOS => match behind(Name::Close, b"e", rest) {
            Some(found) => Some(found),
            None => behind(Name::CloseState, b"ed", rest),
        },
        BEGI => behind(Name::Begin, b"n", rest),
        CUST => behind(Name::Custom, b"om", rest),
        PUT => Some((Name::Put, &text[3..])),
        DEL => Some((Name::Del, &text[3..])),
        GET => Some((Name::Get, &text[3..])),
        COMM => behind(Name::Commit, b"it", rest),
        ROLL => behind(Name::Rollback, b"back", rest),
        _ => None,
    }
}
