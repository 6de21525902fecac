// The exchanges, worked by hand from the rules of both ends; the wire forms are those of a separate model of the checksum and of
// stuffing, and a model of both ends in another language, written from the rules, gives the same rows.
use crate::calls::{Call, Row};

/// A setting of 0, so the link falls at the first timer. The host opens again, so there are two resets of one generation,
/// and the answer to the second is stale while a block is on its way.
pub static NO_REPEATS: [Row; 18] = [
    Row(Call::Open, "opens; opening 0, spare 0: AAAAFF4100471D53"),
    Row(Call::Timer, "down 1; down, spare 0"),
    Row(Call::Open, "opens; opening 0, spare 0: AAAAFF4100471D53"),
    Row(Call::TncHears("AAAAFF4100471D53"), "reset: AAAAFF4100815F"),
    Row(Call::HostHears("AAAAFF4100815F"), "opened; idle, spare 1"),
    Row(Call::HostSubmits(33, "48454C4C4F"), "number 1"),
    Row(
        Call::HostCounts(33),
        "submitted 1, gone 0, waiting 1; out 1, in 0",
    ),
    Row(
        Call::Step,
        "block; on its way 0, spare 1: AAAA21800448454C4C4F8F37",
    ),
    Row(Call::TncHears("AAAAFF4100471D53"), "reset: AAAAFF4100815F"),
    Row(
        Call::HostHears("AAAAFF4100815F"),
        "stale; on its way 0, spare 0",
    ),
    Row(
        Call::TncHears("AAAA21800448454C4C4F8F37"),
        "block taken: AAAA2180A4B1",
    ),
    Row(
        Call::TncCounts(33),
        "submitted 0, gone 0, waiting 0; out 0, in 1",
    ),
    Row(
        Call::HostCounts(33),
        "submitted 1, gone 0, waiting 1; out 1, in 0",
    ),
    Row(
        Call::HostHears("AAAA2180A4B1"),
        "confirmed 33/1; idle, spare 0",
    ),
    Row(
        Call::HostCounts(33),
        "submitted 1, gone 1, waiting 0; out 0, in 0",
    ),
    Row(Call::TncCollects(33), "block 48454C4C4F"),
    Row(Call::TncCollects(33), "refused 13"),
    Row(
        Call::TncCounts(33),
        "submitted 0, gone 0, waiting 0; out 0, in 0",
    ),
];

/// Polls bring blocks, and the frame after each confirms it at the TNC; the first block of a channel goes first, and a poll that
/// confirms a block gives the next. A list is polled in its own order.
pub static POLLED: [Row; 29] = [
    Row(Call::TncSubmits(5, "4F4B"), "number 1"),
    Row(Call::TncSubmits(63, "AA"), "number 1"),
    Row(Call::TncSubmits(5, "00"), "number 2"),
    Row(Call::Open, "opens; opening 0, spare 0: AAAAFF4100471D53"),
    Row(
        Call::TncHears("AAAAFF4100471D53"),
        "reset: AAAAFF410640009EA0",
    ),
    Row(
        Call::HostHears("AAAAFF410640009EA0"),
        "opened; idle, spare 0",
    ),
    Row(
        Call::Step,
        "channel poll; on its way 0, spare 0: AAAA0581004702F2",
    ),
    Row(
        Call::TncHears("AAAA0581004702F2"),
        "block given: AAAA0587014F4BC9F0",
    ),
    Row(
        Call::TncCounts(5),
        "submitted 2, gone 0, waiting 2; out 2, in 0",
    ),
    Row(
        Call::HostHears("AAAA0587014F4BC9F0"),
        "received; idle, spare 0",
    ),
    Row(
        Call::HostCounts(5),
        "submitted 0, gone 0, waiting 0; out 0, in 1",
    ),
    Row(
        Call::Step,
        "channel poll; on its way 0, spare 0: AAAA3F010047B26E",
    ),
    Row(
        Call::TncHears("AAAA3F010047B26E"),
        "block given, confirmed 5/1: AAAA3F0700AA008084",
    ),
    Row(
        Call::TncCounts(5),
        "submitted 2, gone 1, waiting 1; out 1, in 0",
    ),
    Row(
        Call::HostHears("AAAA3F0700AA008084"),
        "received; idle, spare 0",
    ),
    Row(
        Call::Step,
        "general poll; on its way 0, spare 0: AAAAFF8100478759",
    ),
    Row(
        Call::TncHears("AAAAFF8100478759"),
        "list given, confirmed 63/1: AAAAFF810600EC3B",
    ),
    Row(
        Call::HostHears("AAAAFF81220600ABE9"),
        "listed; idle, spare 0",
    ),
    Row(
        Call::Step,
        "channel poll; on its way 0, spare 0: AAAA210100475103",
    ),
    Row(
        Call::TncHears("AAAA210100475103"),
        "nothing waiting: AAAA2100AC35",
    ),
    Row(
        Call::HostHears("AAAA2100AC35"),
        "nothing there; idle, spare 0",
    ),
    Row(
        Call::Step,
        "channel poll; on its way 0, spare 0: AAAA0581004702F2",
    ),
    Row(
        Call::TncHears("AAAA0581004702F2"),
        "block given: AAAA058700006012",
    ),
    Row(
        Call::TncHears("AAAA05010047EEFE"),
        "nothing waiting, confirmed 5/2: AAAA0500FF71",
    ),
    Row(
        Call::HostHears("AAAA058700006012"),
        "received; idle, spare 0",
    ),
    Row(Call::HostCollects(63), "block AA"),
    Row(Call::HostCollects(5), "block 4F4B"),
    Row(Call::HostCollects(5), "block 00"),
    Row(Call::HostCollects(5), "refused 13"),
];

/// Blocks of the lowest channel go first, in order, with alternating toggles, and before a general poll. What comes before them is
/// the list.
pub static THE_LOWEST_CHANNEL_FIRST: [Row; 17] = [
    Row(Call::HostSubmits(40, "01"), "number 1"),
    Row(Call::HostSubmits(3, "02"), "number 1"),
    Row(Call::HostSubmits(3, "03"), "number 2"),
    Row(Call::Open, "opens; opening 0, spare 0: AAAAFF4100471D53"),
    Row(Call::HostHears("AAAAFF4129008D91"), "opened; idle, spare 0"),
    Row(
        Call::Step,
        "channel poll; on its way 0, spare 0: AAAA28810047DEF6",
    ),
    Row(
        Call::HostHears("AAAA2880BC66"),
        "nothing there; idle, spare 0",
    ),
    Row(Call::Step, "block; on its way 0, spare 0: AAAA0300000201FA"),
    Row(
        Call::HostHears("AAAA03002F25"),
        "confirmed 3/1; idle, spare 0",
    ),
    Row(Call::Step, "block; on its way 0, spare 0: AAAA0380000364E7"),
    Row(
        Call::HostHears("AAAA03814F4B00110D"),
        "confirmed 3/2; idle, spare 0",
    ),
    Row(Call::HostSubmits(0, "AAAA"), "number 1"),
    Row(
        Call::Step,
        "block; on its way 0, spare 0: AAAA000001AA00AA0074CD",
    ),
    Row(
        Call::HostHears("AAAA0000470F"),
        "confirmed 0/1; idle, spare 0",
    ),
    Row(Call::Step, "block; on its way 0, spare 0: AAAA28800001308B"),
    Row(
        Call::HostHears("AAAA2880BC66"),
        "confirmed 40/1; idle, spare 0",
    ),
    Row(
        Call::Step,
        "general poll; on its way 0, spare 0: AAAAFF0100476B55",
    ),
];

/// A full store at the TNC: the block is refused and stays, a general poll follows, and then the block goes once more.
pub static NO_PLACE: [Row; 18] = [
    Row(Call::FillTnc, ""),
    Row(Call::HostSubmits(7, "01"), "number 1"),
    Row(Call::Open, "opens; opening 0, spare 0: AAAAFF4100471D53"),
    Row(Call::TncHears("AAAAFF4100471D53"), "reset: AAAAFF4100815F"),
    Row(Call::HostHears("AAAAFF4100815F"), "opened; idle, spare 0"),
    Row(Call::Step, "block; on its way 0, spare 0: AAAA078000019AB6"),
    Row(
        Call::TncHears("AAAA078000019AB6"),
        "no place: AAAA07824E4F20504C414345004FF2",
    ),
    Row(
        Call::TncCounts(7),
        "submitted 0, gone 0, waiting 0; out 0, in 0",
    ),
    Row(
        Call::HostHears("AAAA07824E4F20504C414345004FF2"),
        "block refused; idle, spare 0",
    ),
    Row(
        Call::HostCounts(7),
        "submitted 1, gone 0, waiting 1; out 1, in 0",
    ),
    Row(
        Call::Step,
        "poll after refusal; on its way 0, spare 0: AAAAFF0100476B55",
    ),
    Row(
        Call::TncHears("AAAAFF0100476B55"),
        "list given: AAAAFF0100E719",
    ),
    Row(Call::HostHears("AAAAFF0100E719"), "listed; idle, spare 0"),
    Row(Call::TncCollects(9), "block 09"),
    Row(Call::Step, "block; on its way 0, spare 0: AAAA078000019AB6"),
    Row(
        Call::TncHears("AAAA078000019AB6"),
        "block taken: AAAA078047C6",
    ),
    Row(
        Call::HostHears("AAAA078047C6"),
        "confirmed 7/1; idle, spare 0",
    ),
    Row(Call::TncCollects(7), "block 01"),
];

/// What a TNC answers to other frames: before the first reset 7 and 8, then texts. 7 leaves the last toggle as it was.
pub static FRAMES_THAT_NO_HOST_SENDS: [Row; 12] = [
    Row(Call::TncHears("AAAAFF0100476B55"), "refused 8"),
    Row(Call::TncHears("AAAA21000001BF7E"), "refused 8"),
    Row(Call::TncHears("AAAA214100472705"), "refused 7"),
    Row(Call::TncHears("AAAAFFC10047F15F"), "reset: AAAAFFC1004DD3"),
    Row(
        Call::TncHears("AAAAFF8100478759"),
        "held again: AAAAFFC1004DD3",
    ),
    Row(
        Call::TncHears("AAAAFF0000018528"),
        "no channel: AAAAFF024E4F204348414E4E454C00ED05",
    ),
    Row(Call::TncHears("AAAAFFC10147307E7D"), "refused 7"),
    Row(
        Call::TncHears("AAAAFF0100676974"),
        "held again: AAAAFF024E4F204348414E4E454C00ED05",
    ),
    Row(
        Call::TncHears("AAAAFF8100678578"),
        "unknown: AAAAFF82554E4B4E4F574E009C0C",
    ),
    Row(
        Call::TncHears("AAAA0001014730FDB3"),
        "unknown: AAAA0002554E4B4E4F574E00FDE8",
    ),
    Row(
        Call::TncHears("AAAA00810047559C"),
        "nothing waiting: AAAA00804F8B",
    ),
    Row(Call::TncHears("AAAAFFC10047F15F"), "reset: AAAAFFC1004DD3"),
];

/// A frame that is sent again gets the answer that is held, and the second answer is stale. A reset makes the held block doubtful,
/// and its answer opens the link anew, with the other toggle.
pub static HELD_AGAIN: [Row; 25] = [
    Row(Call::TncSubmits(5, "4F4B"), "number 1"),
    Row(Call::TncSubmits(5, "4F4C"), "number 2"),
    Row(Call::Open, "opens; opening 0, spare 0: AAAAFF4100471D53"),
    Row(
        Call::TncHears("AAAAFF4100471D53"),
        "reset: AAAAFF4106007631",
    ),
    Row(Call::HostHears("AAAAFF4106007631"), "opened; idle, spare 0"),
    Row(
        Call::Step,
        "channel poll; on its way 0, spare 0: AAAA0581004702F2",
    ),
    Row(
        Call::TncHears("AAAA0581004702F2"),
        "block given: AAAA0587014F4BC9F0",
    ),
    Row(
        Call::Timer,
        "repeated; on its way 1, spare 0: AAAA0581004702F2",
    ),
    Row(
        Call::TncHears("AAAA0581004702F2"),
        "held again: AAAA0587014F4BC9F0",
    ),
    Row(
        Call::HostHears("AAAA0587014F4BC9F0"),
        "received; idle, spare 1",
    ),
    Row(
        Call::HostHears("AAAA0587014F4BC9F0"),
        "stale; idle, spare 0",
    ),
    Row(
        Call::HostCounts(5),
        "submitted 0, gone 0, waiting 0; out 0, in 1",
    ),
    Row(
        Call::Step,
        "general poll; on its way 0, spare 0: AAAAFF0100476B55",
    ),
    Row(
        Call::Timer,
        "repeated; on its way 1, spare 0: AAAAFF0100476B55",
    ),
    Row(Call::Timer, "down 1; down, spare 0"),
    Row(Call::Open, "opens; opening 0, spare 0: AAAAFFC10047F15F"),
    Row(
        Call::TncHears("AAAAFFC10047F15F"),
        "reset, doubtful 5/1: AAAAFFC106009A3D",
    ),
    Row(
        Call::TncCounts(5),
        "submitted 2, gone 1, waiting 1; out 1, in 0",
    ),
    Row(
        Call::HostHears("AAAAFF4106007631"),
        "stale; opening 0, spare 0",
    ),
    Row(Call::HostHears("AAAAFFC106009A3D"), "opened; idle, spare 0"),
    Row(
        Call::Step,
        "channel poll; on its way 0, spare 0: AAAA05010047EEFE",
    ),
    Row(
        Call::TncHears("AAAA05010047EEFE"),
        "block given: AAAA0507014F4C18A9",
    ),
    Row(
        Call::HostHears("AAAA0507014F4C18A9"),
        "received; idle, spare 0",
    ),
    Row(Call::HostCollects(5), "block 4F4B"),
    Row(Call::HostCollects(5), "block 4F4C"),
];

/// A full store at the host: the block counts as unheard. Once there is room, the same answer is received.
pub static NO_ROOM: [Row; 16] = [
    Row(Call::FillHost, ""),
    Row(Call::TncSubmits(5, "4F4B"), "number 1"),
    Row(Call::Open, "opens; opening 0, spare 0: AAAAFF4100471D53"),
    Row(
        Call::TncHears("AAAAFF4100471D53"),
        "reset: AAAAFF4106007631",
    ),
    Row(Call::HostHears("AAAAFF4106007631"), "opened; idle, spare 0"),
    Row(
        Call::Step,
        "channel poll; on its way 0, spare 0: AAAA0581004702F2",
    ),
    Row(
        Call::TncHears("AAAA0581004702F2"),
        "block given: AAAA0587014F4BC9F0",
    ),
    Row(
        Call::HostHears("AAAA0587014F4BC9F0"),
        "refused 9; on its way 0, spare 0",
    ),
    Row(
        Call::HostCounts(5),
        "submitted 0, gone 0, waiting 0; out 0, in 0",
    ),
    Row(
        Call::Timer,
        "repeated; on its way 1, spare 0: AAAA0581004702F2",
    ),
    Row(
        Call::TncHears("AAAA0581004702F2"),
        "held again: AAAA0587014F4BC9F0",
    ),
    Row(Call::HostCollects(9), "block 09"),
    Row(
        Call::HostHears("AAAA0587014F4BC9F0"),
        "received; idle, spare 1",
    ),
    Row(Call::HostCollects(5), "block 4F4B"),
    Row(
        Call::Step,
        "general poll; on its way 0, spare 1: AAAAFF0100476B55",
    ),
    Row(
        Call::TncHears("AAAAFF0100476B55"),
        "list given, confirmed 5/1: AAAAFF0100E719",
    ),
];

/// Answers in sequence that do not answer what was sent, cause 3: to a block, whose notes have its numbers, to a channel's poll, on
/// another channel also where there is no room, and to a general poll. The generation's toggle turns over with each opening.
pub static WRONG_ANSWERS: [Row; 41] = [
    Row(Call::HostSubmits(33, "01"), "number 1"),
    Row(Call::HostSubmits(33, "02"), "number 2"),
    Row(Call::HostSubmits(33, "03"), "number 3"),
    Row(Call::Open, "opens; opening 0, spare 0: AAAAFF4100471D53"),
    Row(Call::HostHears("AAAAFF4100815F"), "opened; idle, spare 0"),
    Row(Call::Step, "block; on its way 0, spare 0: AAAA218000015372"),
    Row(
        Call::HostHears("AAAA20807CA8"),
        "down 3, doubt 33/1; down, spare 0",
    ),
    Row(Call::Open, "opens; opening 0, spare 0: AAAAFFC10047F15F"),
    Row(Call::HostHears("AAAAFFC1004DD3"), "opened; idle, spare 0"),
    Row(Call::Step, "block; on its way 0, spare 0: AAAA21000002244C"),
    Row(
        Call::HostHears("AAAA210700059EB4"),
        "down 3, doubt 33/2; down, spare 0",
    ),
    Row(Call::Open, "opens; opening 0, spare 0: AAAAFF4100471D53"),
    Row(Call::HostHears("AAAAFF4100815F"), "opened; idle, spare 0"),
    Row(Call::Step, "block; on its way 0, spare 0: AAAA218000034151"),
    Row(
        Call::HostHears("AAAA21834F4B007E42"),
        "down 3, doubt 33/3; down, spare 0",
    ),
    Row(
        Call::HostCounts(33),
        "submitted 3, gone 3, waiting 0; out 0, in 0",
    ),
    Row(Call::FillHost, ""),
    Row(Call::Open, "opens; opening 0, spare 0: AAAAFFC10047F15F"),
    Row(Call::HostHears("AAAAFFC12200C979"), "opened; idle, spare 0"),
    Row(
        Call::Step,
        "channel poll; on its way 0, spare 0: AAAA210100475103",
    ),
    Row(Call::HostHears("AAAA2007000525A8"), "down 3; down, spare 0"),
    Row(Call::Open, "opens; opening 0, spare 0: AAAAFF4100471D53"),
    Row(Call::HostHears("AAAAFF4122002575"), "opened; idle, spare 0"),
    Row(
        Call::Step,
        "channel poll; on its way 0, spare 0: AAAA21810047BD0F",
    ),
    Row(
        Call::HostHears("AAAA2182554E4B4E4F574E00B8AC"),
        "down 3; down, spare 0",
    ),
    Row(Call::Open, "opens; opening 0, spare 0: AAAAFFC10047F15F"),
    Row(Call::HostHears("AAAAFFC12200C979"), "opened; idle, spare 0"),
    Row(
        Call::Step,
        "channel poll; on its way 0, spare 0: AAAA210100475103",
    ),
    Row(
        Call::HostHears("AAAA21014F4B006656"),
        "down 3; down, spare 0",
    ),
    Row(Call::Open, "opens; opening 0, spare 0: AAAAFF4100471D53"),
    Row(Call::HostHears("AAAAFF4100815F"), "opened; idle, spare 0"),
    Row(
        Call::Step,
        "general poll; on its way 0, spare 0: AAAAFF8100478759",
    ),
    Row(Call::HostHears("AAAAFF808F74"), "down 3; down, spare 0"),
    Row(Call::Open, "opens; opening 0, spare 0: AAAAFFC10047F15F"),
    Row(Call::HostHears("AAAAFFC1004DD3"), "opened; idle, spare 0"),
    Row(
        Call::Step,
        "general poll; on its way 0, spare 0: AAAAFF0100476B55",
    ),
    Row(
        Call::HostHears("AAAAFF010606009FA4"),
        "down 3; down, spare 0",
    ),
    Row(Call::Open, "opens; opening 0, spare 0: AAAAFF4100471D53"),
    Row(Call::HostHears("AAAAFF4100815F"), "opened; idle, spare 0"),
    Row(
        Call::Step,
        "general poll; on its way 0, spare 0: AAAAFF8100478759",
    ),
    Row(Call::HostHears("AAAAFF860001B0F2"), "down 3; down, spare 0"),
];

/// A fresh host passes all frames over, and so does one in opening but for the answer to its reset. Then as many frames out of
/// sequence pass as resets were sent, less one; the next takes the link down, cause 2.
pub static OUT_OF_SEQUENCE: [Row; 20] = [
    Row(Call::HostHears("AAAAFF4100815F"), "stale; fresh, spare 0"),
    Row(Call::Open, "opens; opening 0, spare 0: AAAAFF4100471D53"),
    Row(
        Call::Timer,
        "repeated; opening 1, spare 0: AAAAFF4100471D53",
    ),
    Row(
        Call::Timer,
        "repeated; opening 2, spare 0: AAAAFF4100471D53",
    ),
    Row(
        Call::HostHears("AAAAFFC1004DD3"),
        "stale; opening 2, spare 0",
    ),
    Row(
        Call::HostHears("AAAAFF0100E719"),
        "stale; opening 2, spare 0",
    ),
    Row(
        Call::HostHears("AAAAFF414100183A"),
        "stale; opening 2, spare 0",
    ),
    Row(
        Call::HostHears("AAAA05410600F39A"),
        "stale; opening 2, spare 0",
    ),
    Row(
        Call::HostHears("AAAAFF42060012DE"),
        "stale; opening 2, spare 0",
    ),
    Row(Call::HostHears("AAAAFF4100815F"), "opened; idle, spare 2"),
    Row(Call::HostHears("AAAAFF4100815F"), "stale; idle, spare 1"),
    Row(Call::HostSubmits(33, "01"), "number 1"),
    Row(Call::Step, "block; on its way 0, spare 1: AAAA218000015372"),
    Row(
        Call::HostHears("AAAA2100AC35"),
        "stale; on its way 0, spare 0",
    ),
    Row(
        Call::HostHears("AAAA21C0A0F3"),
        "down 2, doubt 33/1; down, spare 0",
    ),
    Row(Call::HostHears("AAAA2180A4B1"), "stale; down, spare 0"),
    Row(
        Call::HostCounts(33),
        "submitted 1, gone 1, waiting 0; out 0, in 0",
    ),
    Row(Call::Open, "opens; opening 0, spare 0: AAAAFFC10047F15F"),
    Row(Call::HostHears("AAAAFFC1004DD3"), "opened; idle, spare 0"),
    Row(Call::HostHears("AAAA01009F16"), "down 2; down, spare 0"),
];

/// Open, step and timer in every state, with a wire buffer that is wide enough and with one that is not: 16 comes before 14. A
/// refused step leaves the list, and a refused timer the link.
pub static STATES: [Row; 24] = [
    Row(Call::Room(520), ""),
    Row(Call::Open, "refused 14; fresh, spare 0"),
    Row(Call::Step, "refused 16; fresh, spare 0"),
    Row(Call::Timer, "refused 16; fresh, spare 0"),
    Row(Call::Room(521), ""),
    Row(Call::Open, "opens; opening 0, spare 0: AAAAFF4100471D53"),
    Row(Call::Open, "refused 16; opening 0, spare 0"),
    Row(Call::Step, "refused 16; opening 0, spare 0"),
    Row(Call::Room(520), ""),
    Row(Call::Timer, "refused 14; opening 0, spare 0"),
    Row(Call::HostHears("AAAAFF4122002575"), "opened; idle, spare 0"),
    Row(Call::Open, "refused 16; idle, spare 0"),
    Row(Call::Timer, "refused 16; idle, spare 0"),
    Row(Call::Step, "refused 14; idle, spare 0"),
    Row(Call::Room(521), ""),
    Row(
        Call::Step,
        "channel poll; on its way 0, spare 0: AAAA21810047BD0F",
    ),
    Row(Call::Open, "refused 16; on its way 0, spare 0"),
    Row(Call::Step, "refused 16; on its way 0, spare 0"),
    Row(Call::Room(520), ""),
    Row(Call::Timer, "refused 14; on its way 0, spare 0"),
    Row(Call::Room(521), ""),
    Row(Call::Timer, "down 1; down, spare 0"),
    Row(Call::Step, "refused 16; down, spare 0"),
    Row(Call::Timer, "refused 16; down, spare 0"),
];

/// What submit and collect of either end refuse: 10, then 11; 13.
pub static REFUSED_BLOCKS: [Row; 14] = [
    Row(Call::HostSubmits(64, ""), "refused 10"),
    Row(Call::HostSubmits(63, ""), "refused 11"),
    Row(Call::HostCollects(64), "refused 10"),
    Row(Call::HostCollects(63), "refused 13"),
    Row(Call::HostSubmits(63, "01"), "number 1"),
    Row(
        Call::HostCounts(63),
        "submitted 1, gone 0, waiting 1; out 1, in 0",
    ),
    Row(
        Call::HostCounts(64),
        "submitted 0, gone 0, waiting 0; out 0, in 0",
    ),
    Row(Call::TncSubmits(64, ""), "refused 10"),
    Row(Call::TncSubmits(63, ""), "refused 11"),
    Row(Call::TncCollects(64), "refused 10"),
    Row(Call::TncCollects(63), "refused 13"),
    Row(Call::TncSubmits(63, "01"), "number 1"),
    Row(
        Call::TncCounts(63),
        "submitted 1, gone 0, waiting 1; out 1, in 0",
    ),
    Row(
        Call::TncCounts(64),
        "submitted 0, gone 0, waiting 0; out 0, in 0",
    ),
];

/// Faults of the reader come up with their numbers and leave the end. A byte is not heard by a TNC whose wire buffer is too short,
/// inside a frame as well. A frame of which a host had heard half ends in opening, and is judged there.
pub static FAULTS: [Row; 16] = [
    Row(Call::TncHears("AAAA40"), "refused 2"),
    Row(Call::TncHears("AAAA2102"), "refused 3"),
    Row(Call::TncHears("AAAA2100AA05"), "refused 1"),
    Row(Call::TncHears("AAAA21AAAA"), "refused 6"),
    Row(Call::TncHears("FF4100471D53"), "reset: AAAAFF4100815F"),
    Row(Call::TncHears("AAAAFF4100471D54"), "refused 5"),
    Row(Call::TncHears("AAAAFF41"), ""),
    Row(Call::Room(520), ""),
    Row(Call::TncHears("00"), "refused 14"),
    Row(Call::Room(521), ""),
    Row(Call::TncHears("00471D53"), "reset: AAAAFF4100815F"),
    Row(Call::HostHears("AAAAFF41"), "; fresh, spare 0"),
    Row(Call::Open, "opens; opening 0, spare 0: AAAAFF4100471D53"),
    Row(Call::HostHears("00815F"), "opened; idle, spare 0"),
    Row(Call::HostHears("AAAA2108"), "refused 3; idle, spare 0"),
    Row(
        Call::HostHears("AAAAFF41008150"),
        "refused 5; idle, spare 0",
    ),
];
