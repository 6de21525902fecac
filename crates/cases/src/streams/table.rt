// Byte streams and what a fresh reader says of them, as worked by a separate executable model of
// the reader's rules.
use frame::form::Direction;

/// A stream, and its events as one text: each is the place of its byte, from 1, then a fault's
/// number and count with a slash between, or the body that passed.
pub struct StreamCase {
    pub direction: Direction,
    pub stream: &'static str,
    pub events: &'static str,
}

pub static STREAMS: [StreamCase; 28] = [
    StreamCase {
        direction: Direction::FromHost,
        stream: "AAAA21800448454C4C4F8F37",
        events: "12:21800448454C4C4F",
    },
    StreamCase {
        direction: Direction::FromHost,
        stream: "AAAAAA21800448454C4C4F8F37",
        events: "13:21800448454C4C4F",
    },
    StreamCase {
        direction: Direction::FromHost,
        stream: "AAAAAAAAAA21800448454C4C4F8F37",
        events: "15:21800448454C4C4F",
    },
    StreamCase {
        direction: Direction::FromHost,
        stream: "AAAA21800448AAAA21800448454C4C4F8F37",
        events: "8:6/6 18:21800448454C4C4F",
    },
    StreamCase {
        direction: Direction::FromHost,
        stream: "AAAA2180AAAAAA21800448454C4C4F8F37",
        events: "6:6/4 17:21800448454C4C4F",
    },
    StreamCase {
        direction: Direction::FromHost,
        stream: "AAAA2100AA05",
        events: "6:1/4",
    },
    StreamCase {
        direction: Direction::FromHost,
        stream: "AAAA40",
        events: "3:2/1",
    },
    StreamCase {
        direction: Direction::FromHost,
        stream: "AAAAFE",
        events: "3:2/1",
    },
    StreamCase {
        direction: Direction::FromHost,
        stream: "AAAA2102",
        events: "4:3/2",
    },
    StreamCase {
        direction: Direction::FromHost,
        stream: "AAAA21AA00",
        events: "5:3/3",
    },
    StreamCase {
        direction: Direction::FromHost,
        stream: "AAAA21AAAA21800448454C4C4F8F37",
        events: "5:6/3 15:21800448454C4C4F",
    },
    StreamCase {
        direction: Direction::FromHost,
        stream: "AAAA21800448454C4C4F8F36",
        events: "12:5/10",
    },
    StreamCase {
        direction: Direction::FromHost,
        stream: "AAAA21800448454C4C5F8F37",
        events: "12:5/10",
    },
    StreamCase {
        direction: Direction::FromHost,
        stream: "AA00AA21AAAA21800448454C4C4F8F37",
        events: "16:21800448454C4C4F",
    },
    StreamCase {
        direction: Direction::FromHost,
        stream: "AAAAAA2101004700",
        events: "",
    },
    StreamCase {
        direction: Direction::FromHost,
        stream: "AAAA210000AA0005",
        events: "",
    },
    StreamCase {
        direction: Direction::FromTnc,
        stream: "AAAA218702AA004849F5DE",
        events: "11:218702AA4849",
    },
    StreamCase {
        direction: Direction::FromTnc,
        stream: "AAAA218702AA004849F5",
        events: "",
    },
    StreamCase {
        direction: Direction::FromTnc,
        stream: "AAAA218702AA004849F5DEAAAA218702AA004849F5DE",
        events: "11:218702AA4849 22:218702AA4849",
    },
    StreamCase {
        direction: Direction::FromTnc,
        stream: "AAAA2108",
        events: "4:3/2",
    },
    StreamCase {
        direction: Direction::FromTnc,
        stream: "AAAA210178787878787878787878787878787878787878787878787878787878787878787878787878787878787878787878\
            7878787878787878787878787878787878787878787878787878787878787878787878787878787878787878787878787878\
            7878787878787878787878787878787878787878787878787878787878787878787878787878787878787878787878787878\
            7878787878787878787878787878787878787878787878787878787878787878787878787878787878787878787878787878\
            7878787878787878787878787878787878787878787878787878787878787878787878787878787878787878787878787878\
            78787878787878787878",
        events: "260:4/258",
    },
    StreamCase {
        direction: Direction::FromTnc,
        stream: "AAAA210178787878787878787878787878787878787878787878787878787878787878787878787878787878787878787878\
            7878787878787878787878787878787878787878787878787878787878787878787878787878787878787878787878787878\
            7878787878787878787878787878787878787878787878787878787878787878787878787878787878787878787878787878\
            7878787878787878787878787878787878787878787878787878787878787878787878787878787878787878787878787878\
            7878787878787878787878787878787878787878787878787878787878787878787878787878787878787878787878787878\
            787878787878787878AA00",
        events: "261:4/259",
    },
    StreamCase {
        direction: Direction::FromTnc,
        stream: "AAAA210178787878787878787878787878787878787878787878787878787878787878787878787878787878787878787878\
            7878787878787878787878787878787878787878787878787878787878787878787878787878787878787878787878787878\
            7878787878787878787878787878787878787878787878787878787878787878787878787878787878787878787878787878\
            7878787878787878787878787878787878787878787878787878787878787878787878787878787878787878787878787878\
            7878787878787878787878787878787878787878787878787878787878787878787878787878787878787878787878787878\
            78787878787878787800",
        events: "",
    },
    StreamCase {
        direction: Direction::FromTnc,
        stream: "AAAAFF4100",
        events: "",
    },
    StreamCase {
        direction: Direction::FromTnc,
        stream: "AAAAFF4100815F",
        events: "7:FF4100",
    },
    StreamCase {
        direction: Direction::FromTnc,
        stream: "AAAA00804F8B",
        events: "6:0080",
    },
    StreamCase {
        direction: Direction::FromTnc,
        stream: "AAAAAA00804F8B",
        events: "7:0080",
    },
    StreamCase {
        direction: Direction::FromHost,
        stream: "AAAA050002000043E1AA00",
        events: "11:050002000043",
    },
];
