//! Every cell of the tables, by message types. The cells were written out by hand: T take, D discard, 9 STATUS 98, 3 STATUS 43,
//! 7 STATUS 47.

use collision_rules::{
    Action, PtiCase, collide_amf, collide_mm, collide_sm, permitted_amf, permitted_ue,
};
use nas_base::{AmfWord, MmKind, MmWord, SmKind, SmWord};
use std::test::Fail;

// The sign of a cell.
fn sign(action: Action) -> u8 {
    match action {
        Action::Take => b'T',
        Action::Discard => b'D',
        Action::Status98 => b'9',
        Action::Status43 => b'3',
        Action::Status47 => b'7',
    }
}

// A type; whether it is permitted at a handset and at the AMF; the handset's cells in Registering from Deregistered, Registering
// from Registered, Registered, Serving, Deregistering; the AMF's where the subscriber is registered, where it isn't, and in
// Deregistering.
const MM: [(u8, bool, bool, &[u8; 5], &[u8; 3]); 25] = [
    (0x41, false, true, b"9999D", b"TTT"),
    (0x42, false, false, b"TTTTD", b"999"),
    (0x43, false, false, b"9999D", b"TTT"),
    (0x44, true, false, b"TT99D", b"999"),
    (0x45, false, false, b"9999D", b"TTT"),
    (0x46, true, false, b"9999T", b"999"),
    (0x47, false, false, b"DTTTT", b"999"),
    (0x48, false, true, b"9999D", b"TTT"),
    (0x4c, false, true, b"9999D", b"TTD"),
    (0x4d, true, false, b"999TD", b"999"),
    (0x4e, false, false, b"999TD", b"999"),
    (0x54, false, false, b"9DTTD", b"999"),
    (0x55, false, false, b"9999D", b"TTT"),
    (0x56, true, false, b"TTTTD", b"999"),
    (0x57, false, true, b"9999D", b"TTT"),
    (0x58, true, false, b"TTTTD", b"999"),
    (0x59, false, true, b"9999D", b"TTT"),
    (0x5b, true, false, b"TTTTD", b"999"),
    (0x5c, false, true, b"9999D", b"TTT"),
    (0x5d, false, false, b"TTTTD", b"999"),
    (0x5e, false, false, b"9999D", b"TTT"),
    (0x5f, false, true, b"9999D", b"TTT"),
    (0x64, false, false, b"DDDDD", b"DDD"),
    (0x67, false, false, b"9999D", b"T9D"),
    (0x68, false, false, b"9TTTD", b"999"),
];

// A type; the cells in Inactive, ActivePending, Active, ModificationPending, InactivePending, for PTI 0, for that of the open
// transaction, and for any other.
const SM: [(u8, &[u8; 5], &[u8; 5], &[u8; 5]); 13] = [
    (0xc1, b"99999", b"99999", b"99999"),
    (0xc2, b"DDDDD", b"DTDDD", b"DDDDD"),
    (0xc3, b"DDDDD", b"DTDDD", b"DDDDD"),
    (0xc9, b"99999", b"99999", b"99999"),
    (0xca, b"DDDDD", b"DDDTD", b"DDDDD"),
    (0xcb, b"33TTD", b"337TD", b"3377D"),
    (0xcc, b"99999", b"99999", b"99999"),
    (0xcd, b"99999", b"99999", b"99999"),
    (0xd1, b"99999", b"99999", b"99999"),
    (0xd2, b"DDDDD", b"DDDDT", b"DDDDD"),
    (0xd3, b"33TTT", b"33TTT", b"33TTT"),
    (0xd4, b"99999", b"99999", b"99999"),
    (0xd6, b"DDDDD", b"DDDDD", b"DDDDD"),
];

// The handset's cells of a kind.
fn handset_cells(kind: MmKind) -> [u8; 5] {
    [
        sign(collide_mm(MmWord::RegisteringNew, kind)),
        sign(collide_mm(MmWord::RegisteringAgain, kind)),
        sign(collide_mm(MmWord::Registered, kind)),
        sign(collide_mm(MmWord::Serving, kind)),
        sign(collide_mm(MmWord::Deregistering, kind)),
    ]
}

// The AMF's cells of a kind, for a subscriber in this state or in Deregistering.
fn amf_cells(state: AmfWord, kind: MmKind) -> [u8; 4] {
    [
        sign(collide_amf(state, true, kind)),
        sign(collide_amf(state, false, kind)),
        sign(collide_amf(AmfWord::Deregistering, true, kind)),
        sign(collide_amf(AmfWord::Deregistering, false, kind)),
    ]
}

// The cells of a kind with such a PTI.
fn session_cells(kind: SmKind, pti: PtiCase) -> [u8; 5] {
    [
        sign(collide_sm(SmWord::Inactive, kind, pti)),
        sign(collide_sm(SmWord::ActivePending, kind, pti)),
        sign(collide_sm(SmWord::Active, kind, pti)),
        sign(collide_sm(SmWord::ModificationPending, kind, pti)),
        sign(collide_sm(SmWord::InactivePending, kind, pti)),
    ]
}

#[test]
fn mm_tables(rt: HostRuntime) -> Result<(), Fail> {
    for (code, ue, amf, cells, network) in MM {
        let kind = MmKind::from_code(code).ok_or("a kind")?;
        assert_eq!(rt; permitted_ue(kind), ue, "{code:x}");
        assert_eq!(rt; permitted_amf(kind), amf, "{code:x}");
        assert_eq!(rt;
            sign(collide_mm(MmWord::Deregistered, kind)),
            b'D',
            "{code:x}"
        );
        assert_eq!(rt; handset_cells(kind), *cells, "{code:x}");
        let wanted = [network[0], network[1], network[2], network[2]];
        for state in [AmfWord::Deregistered, AmfWord::Common, AmfWord::Registered] {
            assert_eq!(rt; amf_cells(state, kind), wanted, "{code:x}");
        }
    }
    Ok(())
}

#[test]
fn sm_table(rt: HostRuntime) -> Result<(), Fail> {
    for (code, none, mine, foreign) in SM {
        let kind = SmKind::from_code(code).ok_or("a kind")?;
        assert_eq!(rt; session_cells(kind, PtiCase::None), *none, "{code:x}");
        assert_eq!(rt; session_cells(kind, PtiCase::Mine), *mine, "{code:x}");
        assert_eq!(rt; session_cells(kind, PtiCase::Foreign), *foreign, "{code:x}");
    }
    Ok(())
}

#[test]
fn tables_have_every_kind(rt: HostRuntime) {
    for code in 0..=255 {
        assert_eq!(rt;
            MmKind::from_code(code).is_some(),
            MM.iter().any(|row| row.0 == code),
            "{code:x}"
        );
        assert_eq!(rt;
            SmKind::from_code(code).is_some(),
            SM.iter().any(|row| row.0 == code),
            "{code:x}"
        );
    }
}
