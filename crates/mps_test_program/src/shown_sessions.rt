//! mps_program, mps_wire, mps_show: after each line of a script `show` answers the JSON that was written out by hand.
use crate::parts::answers;
use crate::reversals::{LOOP, PAIRS, RELAY, put_line};
use std::alloc::{AllocError, Global};
use std::process::Abort;
use std::test::Fail;

// A line, its answer, and what is shown after it.
type Line = (&'static str, &'static str, &'static str);

// A protocol, and the lines of a script.
struct Row(&'static str, &'static [Line]);

// ---- a gives b a number, b gives c one, and c tells a that it is fine or not

// The session of the relay as it is shown after the steps that the names tell; 5 and 7 are the numbers given.
const NOTHING: &str = concat!(
    r#"{"history":[],"queues":[],"roles":["#,
    r#"{"expects":"send b int","past":[],"role":"a","store":[]},"#,
    r#"{"expects":"recv a int","past":[],"role":"b","store":[]},"#,
    r#"{"expects":"recv b int","past":[],"role":"c","store":[]}]}"#,
);

const SENT: &str = concat!(
    r#"{"history":[[1,"a","send","b",5]],"queues":[["a","b",[5]]],"roles":["#,
    r#"{"expects":"pick c ok no","past":[1],"role":"a","store":[]},"#,
    r#"{"expects":"recv a int","past":[],"role":"b","store":[]},"#,
    r#"{"expects":"recv b int","past":[],"role":"c","store":[]}]}"#,
);

const RECEIVED: &str = concat!(
    r#"{"history":[[1,"a","send","b",5],[2,"b","recv","a","x",5]],"queues":[],"roles":["#,
    r#"{"expects":"pick c ok no","past":[1],"role":"a","store":[]},"#,
    r#"{"expects":"send c int","past":[2],"role":"b","store":[["x",5]]},"#,
    r#"{"expects":"recv b int","past":[],"role":"c","store":[]}]}"#,
);

const SENT_ON: &str = concat!(
    r#"{"history":[[1,"a","send","b",5],[2,"b","recv","a","x",5],[3,"b","send","c",7]],"#,
    r#""queues":[["b","c",[7]]],"roles":["#,
    r#"{"expects":"pick c ok no","past":[1],"role":"a","store":[]},"#,
    r#"{"expects":"end","past":[2,3],"role":"b","store":[["x",5]]},"#,
    r#"{"expects":"recv b int","past":[],"role":"c","store":[]}]}"#,
);

const RELAYED: &str = concat!(
    r#"{"history":[[1,"a","send","b",5],[2,"b","recv","a","x",5],[3,"b","send","c",7],"#,
    r#"[4,"c","recv","b","y",7]],"queues":[],"roles":["#,
    r#"{"expects":"pick c ok no","past":[1],"role":"a","store":[]},"#,
    r#"{"expects":"end","past":[2,3],"role":"b","store":[["x",5]]},"#,
    r#"{"expects":"choose a ok no","past":[4],"role":"c","store":[["y",7]]}]}"#,
);

const CHOSEN: &str = concat!(
    r#"{"history":[[1,"a","send","b",5],[2,"b","recv","a","x",5],[3,"b","send","c",7],"#,
    r#"[4,"c","recv","b","y",7],[5,"c","choose","a","ok"]],"#,
    r#""queues":[["c","a",[{"label":"ok"}]]],"roles":["#,
    r#"{"expects":"pick c ok no","past":[1],"role":"a","store":[]},"#,
    r#"{"expects":"end","past":[2,3],"role":"b","store":[["x",5]]},"#,
    r#"{"expects":"end","past":[4,5],"role":"c","store":[["y",7]]}]}"#,
);

const PICKED: &str = concat!(
    r#"{"history":[[1,"a","send","b",5],[2,"b","recv","a","x",5],[3,"b","send","c",7],"#,
    r#"[4,"c","recv","b","y",7],[5,"c","choose","a","ok"],[6,"a","pick","c","ok"]],"#,
    r#""queues":[],"roles":["#,
    r#"{"expects":"end","past":[1,6],"role":"a","store":[]},"#,
    r#"{"expects":"end","past":[2,3],"role":"b","store":[["x",5]]},"#,
    r#"{"expects":"end","past":[4,5],"role":"c","store":[["y",7]]}]}"#,
);

const MARKED: &str = concat!(
    r#"{"history":[[1,"a","send","b",5],[2,"b","recv","a","x",5],[3,"b","send","c",7],"#,
    r#"[4,"c","recv","b","y",7],[5,"c","choose","a","ok"],[6,"a","pick","c","ok"],"#,
    r#"[7,"a","mark","e"]],"queues":[],"roles":["#,
    r#"{"expects":"end","past":[1,6,7],"role":"a","store":[]},"#,
    r#"{"expects":"end","past":[2,3],"role":"b","store":[["x",5]]},"#,
    r#"{"expects":"end","past":[4,5],"role":"c","store":[["y",7]]}]}"#,
);

const GREATEST: &str = concat!(
    r#"{"history":[[1,"a","send","b",9223372036854775807]],"#,
    r#""queues":[["a","b",[9223372036854775807]]],"roles":["#,
    r#"{"expects":"pick c ok no","past":[1],"role":"a","store":[]},"#,
    r#"{"expects":"recv a int","past":[],"role":"b","store":[]},"#,
    r#"{"expects":"recv b int","past":[],"role":"c","store":[]}]}"#,
);

// Scripts of the relay, with what is shown after each line.
const RELAYS: &[Row] = &[
    // undos lead back to what was shown before, and a refusal changes nothing
    Row(
        RELAY,
        &[
            ("a send b 5", "done 1", SENT),
            ("b recv a x", "done 2 5", RECEIVED),
            ("a undo 1", "refused needed 2", RECEIVED),
            ("b undo 2", "undone 2", SENT),
            ("a undo 1", "undone 1", NOTHING),
        ],
    ),
    // a rollback of all leaves a new session; news changes nothing
    Row(
        RELAY,
        &[
            ("a send b 5", "done 1", SENT),
            ("b recv a x", "done 2 5", RECEIVED),
            ("b send c 7", "done 3", SENT_ON),
            ("c recv b y", "done 4 7", RELAYED),
            ("a rollback 1", "undone 4 3 2 1", NOTHING),
            ("b news 0", "news 5 3 2", NOTHING),
            ("a news 0", "news 5", NOTHING),
            ("c news 0", "news 5 4", NOTHING),
            ("c news 9", "news 5", NOTHING),
        ],
    ),
    // a rollback from b's receipt on leaves a's send, whose number waits again
    Row(
        RELAY,
        &[
            ("a send b 5", "done 1", SENT),
            ("b recv a x", "done 2 5", RECEIVED),
            ("b send c 7", "done 3", SENT_ON),
            ("c recv b y", "done 4 7", RELAYED),
            ("b rollback 2", "undone 4 3 2", SENT),
        ],
    ),
    // refused steps and undos change nothing
    Row(
        RELAY,
        &[
            ("b recv a x", "refused nothingqueued", NOTHING),
            ("a recv b x", "refused wrongact", NOTHING),
            ("a send c 5", "refused wrongpeer", NOTHING),
            ("a send b true", "refused wrongsort", NOTHING),
            ("b undo 7", "refused nostep", NOTHING),
            ("a send b 5", "done 1", SENT),
            ("b undo 1", "refused notyours", SENT),
        ],
    ),
    // to the end of each role's part, with a mark after it
    Row(
        RELAY,
        &[
            ("a send b 5", "done 1", SENT),
            ("b recv a x", "done 2 5", RECEIVED),
            ("b send c 7", "done 3", SENT_ON),
            ("c recv b y", "done 4 7", RELAYED),
            ("c choose a maybe", "refused nolabel", RELAYED),
            ("a pick c", "refused nothingqueued", RELAYED),
            ("c choose a ok", "done 5", CHOSEN),
            ("a pick c", "done 6 ok", PICKED),
            ("a mark e", "done 7", MARKED),
            ("a send b 1", "refused ended", MARKED),
        ],
    ),
    // the greatest int, 2^63 - 1, and one more
    Row(
        RELAY,
        &[
            ("a send b 9223372036854775808", "refused line", NOTHING),
            ("a send b 9223372036854775807", "done 1", GREATEST),
            ("a undo 1", "undone 1", NOTHING),
        ],
    ),
];

// ---- a relay that ends where the numbers have come

// b gives c a number when it has one from a.
const HANDING: &str = "roles a b c ; a -> b : int . b -> c : int . end";

// The script of such a relay, with what is shown after each line.
const HANDINGS: &[Row] = &[Row(
    HANDING,
    &[
        (
            "a send b 5",
            "done 1",
            concat!(
                r#"{"history":[[1,"a","send","b",5]],"queues":[["a","b",[5]]],"roles":["#,
                r#"{"expects":"end","past":[1],"role":"a","store":[]},"#,
                r#"{"expects":"recv a int","past":[],"role":"b","store":[]},"#,
                r#"{"expects":"recv b int","past":[],"role":"c","store":[]}]}"#,
            ),
        ),
        (
            "b recv a x",
            "done 2 5",
            concat!(
                r#"{"history":[[1,"a","send","b",5],[2,"b","recv","a","x",5]],"queues":[],"#,
                r#""roles":[{"expects":"end","past":[1],"role":"a","store":[]},"#,
                r#"{"expects":"send c int","past":[2],"role":"b","store":[["x",5]]},"#,
                r#"{"expects":"recv b int","past":[],"role":"c","store":[]}]}"#,
            ),
        ),
        (
            "b send c 7",
            "done 3",
            concat!(
                r#"{"history":[[1,"a","send","b",5],[2,"b","recv","a","x",5],"#,
                r#"[3,"b","send","c",7]],"queues":[["b","c",[7]]],"roles":["#,
                r#"{"expects":"end","past":[1],"role":"a","store":[]},"#,
                r#"{"expects":"end","past":[2,3],"role":"b","store":[["x",5]]},"#,
                r#"{"expects":"recv b int","past":[],"role":"c","store":[]}]}"#,
            ),
        ),
        (
            "c recv b y",
            "done 4 7",
            concat!(
                r#"{"history":[[1,"a","send","b",5],[2,"b","recv","a","x",5],"#,
                r#"[3,"b","send","c",7],[4,"c","recv","b","y",7]],"queues":[],"roles":["#,
                r#"{"expects":"end","past":[1],"role":"a","store":[]},"#,
                r#"{"expects":"end","past":[2,3],"role":"b","store":[["x",5]]},"#,
                r#"{"expects":"end","past":[4],"role":"c","store":[["y",7]]}]}"#,
            ),
        ),
    ],
)];

// ---- two pairs that have nothing to do with each other

// The session of the pairs as it is shown after the steps that the names tell.
const A_SENT: &str = concat!(
    r#"{"history":[[1,"a","send","b",1]],"queues":[["a","b",[1]]],"roles":["#,
    r#"{"expects":"end","past":[1],"role":"a","store":[]},"#,
    r#"{"expects":"recv a int","past":[],"role":"b","store":[]},"#,
    r#"{"expects":"send d int","past":[],"role":"c","store":[]},"#,
    r#"{"expects":"recv c int","past":[],"role":"d","store":[]}]}"#,
);

const A_AND_C_SENT: &str = concat!(
    r#"{"history":[[1,"a","send","b",1],[2,"c","send","d",2]],"#,
    r#""queues":[["a","b",[1]],["c","d",[2]]],"roles":["#,
    r#"{"expects":"end","past":[1],"role":"a","store":[]},"#,
    r#"{"expects":"recv a int","past":[],"role":"b","store":[]},"#,
    r#"{"expects":"end","past":[2],"role":"c","store":[]},"#,
    r#"{"expects":"recv c int","past":[],"role":"d","store":[]}]}"#,
);

const STEP_2_STAYS: &str = concat!(
    r#"{"history":[[2,"c","send","d",2]],"queues":[["c","d",[2]]],"roles":["#,
    r#"{"expects":"send b int","past":[],"role":"a","store":[]},"#,
    r#"{"expects":"recv a int","past":[],"role":"b","store":[]},"#,
    r#"{"expects":"end","past":[2],"role":"c","store":[]},"#,
    r#"{"expects":"recv c int","past":[],"role":"d","store":[]}]}"#,
);

const C_SENT: &str = concat!(
    r#"{"history":[[1,"c","send","d",2]],"queues":[["c","d",[2]]],"roles":["#,
    r#"{"expects":"send b int","past":[],"role":"a","store":[]},"#,
    r#"{"expects":"recv a int","past":[],"role":"b","store":[]},"#,
    r#"{"expects":"end","past":[1],"role":"c","store":[]},"#,
    r#"{"expects":"recv c int","past":[],"role":"d","store":[]}]}"#,
);

// the queues stand in the order of the roles, whichever was sent first
const C_AND_A_SENT: &str = concat!(
    r#"{"history":[[1,"c","send","d",2],[2,"a","send","b",1]],"#,
    r#""queues":[["a","b",[1]],["c","d",[2]]],"roles":["#,
    r#"{"expects":"end","past":[2],"role":"a","store":[]},"#,
    r#"{"expects":"recv a int","past":[],"role":"b","store":[]},"#,
    r#"{"expects":"end","past":[1],"role":"c","store":[]},"#,
    r#"{"expects":"recv c int","past":[],"role":"d","store":[]}]}"#,
);

const C_AND_A_SENT_3: &str = concat!(
    r#"{"history":[[1,"c","send","d",2],[2,"a","send","b",3]],"#,
    r#""queues":[["a","b",[3]],["c","d",[2]]],"roles":["#,
    r#"{"expects":"end","past":[2],"role":"a","store":[]},"#,
    r#"{"expects":"recv a int","past":[],"role":"b","store":[]},"#,
    r#"{"expects":"end","past":[1],"role":"c","store":[]},"#,
    r#"{"expects":"recv c int","past":[],"role":"d","store":[]}]}"#,
);

// Scripts of two pairs, with what is shown after each line.
const TWO_PAIRS: &[Row] = &[
    // a rollback leaves what doesn't depend on it, with its number
    Row(
        PAIRS,
        &[
            ("a send b 1", "done 1", A_SENT),
            ("c send d 2", "done 2", A_AND_C_SENT),
            ("a rollback 1", "undone 1", STEP_2_STAYS),
        ],
    ),
    // steps in the other order, and with another value
    Row(
        PAIRS,
        &[
            ("c send d 2", "done 1", C_SENT),
            ("a send b 1", "done 2", C_AND_A_SENT),
        ],
    ),
    Row(
        PAIRS,
        &[
            ("c send d 2", "done 1", C_SENT),
            ("a send b 3", "done 2", C_AND_A_SENT_3),
        ],
    ),
];

// ---- a gives b numbers without end

// The session of the loop as it is shown after the steps that the names tell.
const NO_NUMBER: &str = concat!(
    r#"{"history":[],"queues":[],"roles":["#,
    r#"{"expects":"send b int","past":[],"role":"a","store":[]},"#,
    r#"{"expects":"recv a int","past":[],"role":"b","store":[]}]}"#,
);

const ONE_WAITS: &str = concat!(
    r#"{"history":[[1,"a","send","b",1]],"queues":[["a","b",[1]]],"roles":["#,
    r#"{"expects":"send b int","past":[1],"role":"a","store":[]},"#,
    r#"{"expects":"recv a int","past":[],"role":"b","store":[]}]}"#,
);

const TWO_WAIT: &str = concat!(
    r#"{"history":[[1,"a","send","b",1],[2,"a","send","b",2]],"#,
    r#""queues":[["a","b",[1,2]]],"roles":["#,
    r#"{"expects":"send b int","past":[1,2],"role":"a","store":[]},"#,
    r#"{"expects":"recv a int","past":[],"role":"b","store":[]}]}"#,
);

const FIRST_RECEIVED: &str = concat!(
    r#"{"history":[[1,"a","send","b",1],[2,"a","send","b",2],[3,"b","recv","a","x",1]],"#,
    r#""queues":[["a","b",[2]]],"roles":["#,
    r#"{"expects":"send b int","past":[1,2],"role":"a","store":[]},"#,
    r#"{"expects":"recv a int","past":[3],"role":"b","store":[["x",1]]}]}"#,
);

const RECEIVED_AGAIN: &str = concat!(
    r#"{"history":[[1,"a","send","b",1],[2,"a","send","b",2],[4,"b","recv","a","x",1]],"#,
    r#""queues":[["a","b",[2]]],"roles":["#,
    r#"{"expects":"send b int","past":[1,2],"role":"a","store":[]},"#,
    r#"{"expects":"recv a int","past":[4],"role":"b","store":[["x",1]]}]}"#,
);

const BOTH_RECEIVED: &str = concat!(
    r#"{"history":[[1,"a","send","b",1],[2,"a","send","b",2],[3,"b","recv","a","x",1],"#,
    r#"[4,"b","recv","a","x",2]],"queues":[],"roles":["#,
    r#"{"expects":"send b int","past":[1,2],"role":"a","store":[]},"#,
    r#"{"expects":"recv a int","past":[3,4],"role":"b","store":[["x",2]]}]}"#,
);

const ONE_RECEIVED: &str = concat!(
    r#"{"history":[[1,"a","send","b",1],[2,"b","recv","a","x",1]],"queues":[],"roles":["#,
    r#"{"expects":"send b int","past":[1],"role":"a","store":[]},"#,
    r#"{"expects":"recv a int","past":[2],"role":"b","store":[["x",1]]}]}"#,
);

const SENT_BEHIND_IT: &str = concat!(
    r#"{"history":[[1,"a","send","b",1],[2,"b","recv","a","x",1],[3,"a","send","b",2]],"#,
    r#""queues":[["a","b",[2]]],"roles":["#,
    r#"{"expects":"send b int","past":[1,3],"role":"a","store":[]},"#,
    r#"{"expects":"recv a int","past":[2],"role":"b","store":[["x",1]]}]}"#,
);

const ANOTHER_WAITS: &str = concat!(
    r#"{"history":[[3,"a","send","b",9]],"queues":[["a","b",[9]]],"roles":["#,
    r#"{"expects":"send b int","past":[3],"role":"a","store":[]},"#,
    r#"{"expects":"recv a int","past":[],"role":"b","store":[]}]}"#,
);

const ANOTHER_RECEIVED: &str = concat!(
    r#"{"history":[[3,"a","send","b",9],[4,"b","recv","a","x",9]],"queues":[],"roles":["#,
    r#"{"expects":"send b int","past":[3],"role":"a","store":[]},"#,
    r#"{"expects":"recv a int","past":[4],"role":"b","store":[["x",9]]}]}"#,
);

const SECOND_WAITS: &str = concat!(
    r#"{"history":[[2,"a","send","b",2]],"queues":[["a","b",[2]]],"roles":["#,
    r#"{"expects":"send b int","past":[2],"role":"a","store":[]},"#,
    r#"{"expects":"recv a int","past":[],"role":"b","store":[]}]}"#,
);

const MARK_ALONE: &str = concat!(
    r#"{"history":[[1,"a","mark","m"]],"queues":[],"roles":["#,
    r#"{"expects":"send b int","past":[1],"role":"a","store":[]},"#,
    r#"{"expects":"recv a int","past":[],"role":"b","store":[]}]}"#,
);

const SENT_BEHIND_MARK: &str = concat!(
    r#"{"history":[[1,"a","mark","m"],[2,"a","send","b",1]],"#,
    r#""queues":[["a","b",[1]]],"roles":["#,
    r#"{"expects":"send b int","past":[1,2],"role":"a","store":[]},"#,
    r#"{"expects":"recv a int","past":[],"role":"b","store":[]}]}"#,
);

const RECEIVED_BEHIND_MARK: &str = concat!(
    r#"{"history":[[1,"a","mark","m"],[2,"a","send","b",1],[3,"b","recv","a","x",1]],"#,
    r#""queues":[],"roles":["#,
    r#"{"expects":"send b int","past":[1,2],"role":"a","store":[]},"#,
    r#"{"expects":"recv a int","past":[3],"role":"b","store":[["x",1]]}]}"#,
);

const THREE_WAIT: &str = concat!(
    r#"{"history":[[1,"a","send","b",1],[2,"a","send","b",2],[3,"a","send","b",3]],"#,
    r#""queues":[["a","b",[1,2,3]]],"roles":["#,
    r#"{"expects":"send b int","past":[1,2,3],"role":"a","store":[]},"#,
    r#"{"expects":"recv a int","past":[],"role":"b","store":[]}]}"#,
);

const X_IS_1: &str = concat!(
    r#"{"history":[[1,"a","send","b",1],[2,"a","send","b",2],[3,"a","send","b",3],"#,
    r#"[4,"b","recv","a","x",1]],"queues":[["a","b",[2,3]]],"roles":["#,
    r#"{"expects":"send b int","past":[1,2,3],"role":"a","store":[]},"#,
    r#"{"expects":"recv a int","past":[4],"role":"b","store":[["x",1]]}]}"#,
);

const Y_IS_2: &str = concat!(
    r#"{"history":[[1,"a","send","b",1],[2,"a","send","b",2],[3,"a","send","b",3],"#,
    r#"[4,"b","recv","a","x",1],[5,"b","recv","a","y",2]],"queues":[["a","b",[3]]],"roles":["#,
    r#"{"expects":"send b int","past":[1,2,3],"role":"a","store":[]},"#,
    r#"{"expects":"recv a int","past":[4,5],"role":"b","store":[["x",1],["y",2]]}]}"#,
);

// x keeps its place in front of y
const X_IS_3: &str = concat!(
    r#"{"history":[[1,"a","send","b",1],[2,"a","send","b",2],[3,"a","send","b",3],"#,
    r#"[4,"b","recv","a","x",1],[5,"b","recv","a","y",2],[6,"b","recv","a","x",3]],"#,
    r#""queues":[],"roles":["#,
    r#"{"expects":"send b int","past":[1,2,3],"role":"a","store":[]},"#,
    r#"{"expects":"recv a int","past":[4,5,6],"role":"b","store":[["x",3],["y",2]]}]}"#,
);

const Y_IS_1: &str = concat!(
    r#"{"history":[[1,"a","send","b",1],[2,"a","send","b",2],[3,"a","send","b",3],"#,
    r#"[7,"b","recv","a","y",1]],"queues":[["a","b",[2,3]]],"roles":["#,
    r#"{"expects":"send b int","past":[1,2,3],"role":"a","store":[]},"#,
    r#"{"expects":"recv a int","past":[7],"role":"b","store":[["y",1]]}]}"#,
);

// Scripts of the loop, with what is shown after each line.
const LOOPS: &[Row] = &[
    // an undone receipt: its message waits in front again
    Row(
        LOOP,
        &[
            ("a send b 1", "done 1", ONE_WAITS),
            ("a send b 2", "done 2", TWO_WAIT),
            ("b recv a x", "done 3 1", FIRST_RECEIVED),
            ("b undo 3", "undone 3", TWO_WAIT),
            ("b recv a x", "done 4 1", RECEIVED_AGAIN),
        ],
    ),
    // an undone send: its message waits no more
    Row(
        LOOP,
        &[
            ("a send b 1", "done 1", ONE_WAITS),
            ("b recv a x", "done 2 1", ONE_RECEIVED),
            ("b undo 2", "undone 2", ONE_WAITS),
            ("a undo 1", "undone 1", NO_NUMBER),
            ("a send b 9", "done 3", ANOTHER_WAITS),
            ("b recv a x", "done 4 9", ANOTHER_RECEIVED),
        ],
    ),
    // a slot gets back what it was bound to
    Row(
        LOOP,
        &[
            ("a send b 1", "done 1", ONE_WAITS),
            ("a send b 2", "done 2", TWO_WAIT),
            ("b recv a x", "done 3 1", FIRST_RECEIVED),
            ("b recv a x", "done 4 2", BOTH_RECEIVED),
            ("b undo 4", "undone 4", FIRST_RECEIVED),
        ],
    ),
    // a refused undo changes nothing: the next send, or the receipt, depends on the step
    Row(
        LOOP,
        &[
            ("a send b 1", "done 1", ONE_WAITS),
            ("a send b 2", "done 2", TWO_WAIT),
            ("b recv a x", "done 3 1", FIRST_RECEIVED),
            ("a undo 1", "refused needed 2", FIRST_RECEIVED),
        ],
    ),
    Row(
        LOOP,
        &[
            ("a send b 1", "done 1", ONE_WAITS),
            ("b recv a x", "done 2 1", ONE_RECEIVED),
            ("a send b 2", "done 3", SENT_BEHIND_IT),
            ("a undo 1", "refused needed 2", SENT_BEHIND_IT),
        ],
    ),
    // returns to a mark, which stays until it is undone
    Row(
        LOOP,
        &[
            ("a mark m", "done 1", MARK_ALONE),
            ("a send b 1", "done 2", SENT_BEHIND_MARK),
            ("b recv a x", "done 3 1", RECEIVED_BEHIND_MARK),
            ("a back m", "undone 3 2", MARK_ALONE),
            ("a back m", "undone", MARK_ALONE),
            ("a undo 1", "undone 1", NO_NUMBER),
            ("a back m", "refused nomark", NO_NUMBER),
        ],
    ),
    // a number is not given out again
    Row(
        LOOP,
        &[
            ("a send b 1", "done 1", ONE_WAITS),
            ("a undo 1", "undone 1", NO_NUMBER),
            ("a send b 2", "done 2", SECOND_WAITS),
            ("a undo 1", "refused nostep", SECOND_WAITS),
        ],
    ),
    // two slots are bound and get back what they had, x twice, and keep their places
    Row(
        LOOP,
        &[
            ("a send b 1", "done 1", ONE_WAITS),
            ("a send b 2", "done 2", TWO_WAIT),
            ("a send b 3", "done 3", THREE_WAIT),
            ("b recv a x", "done 4 1", X_IS_1),
            ("b recv a y", "done 5 2", Y_IS_2),
            ("b recv a x", "done 6 3", X_IS_3),
            ("b undo 6", "undone 6", Y_IS_2),
            ("b undo 5", "undone 5", X_IS_1),
            ("b undo 4", "undone 4", THREE_WAIT),
            ("b recv a y", "done 7 1", Y_IS_1),
        ],
    ),
];

// The lines of a script with a line that shows after each, and those of the answers.
fn both(alloc: Global, show: &str, lines: &[Line]) -> Result<(String, String), AllocError> {
    let (mut script, mut want) = (String::new(alloc), String::new(alloc));
    for (line, answer, shown) in lines {
        put_line(&mut script, line)?;
        put_line(&mut script, show)?;
        put_line(&mut want, answer)?;
        put_line(&mut want, shown)?;
    }
    Ok((script, want))
}

// Each row's lines are answered so, and after each the session is shown so to the role that asks by
// this line. The last line has no LF.
fn run_shown(rt: &impl Abort, alloc: Global, show: &str, rows: &[Row]) -> Result<(), Fail> {
    for Row(protocol, lines) in rows {
        let (script, want) = both(alloc, show, lines)?;
        let found = answers(alloc, protocol, script.as_str().trim_end())?;
        assert_eq!(rt;
            found.as_slice(),
            want.as_bytes(),
            "the answers to {script:?}"
        );
    }
    Ok(())
}

// `mps_wire::script::replay_session`, by which `mps_tool run` answers: a, the first role, is shown the session after
// each line of the relay's scripts.
#[test]
fn the_first_role_is_shown_a_relay(rt: HostRuntime) -> Result<(), Fail> {
    run_shown(&rt, rt.alloc(), "a show", RELAYS)
}

// `mps_wire::script::replay_session`, by which `mps_tool run` answers: after each line of the relay's scripts c, the
// last role, is shown what a is in the test before, since what is shown doesn't depend on who asks.
#[test]
fn the_last_role_is_shown_what_the_first_is(rt: HostRuntime) -> Result<(), Fail> {
    run_shown(&rt, rt.alloc(), "c show", RELAYS)
}

// `mps_wire::script::replay_session`, by which `mps_tool run` answers: b, who stands in the middle, is shown the
// session after each line of a relay without a choice.
#[test]
fn a_role_in_the_middle_is_shown_what_is_handed_on(rt: HostRuntime) -> Result<(), Fail> {
    run_shown(&rt, rt.alloc(), "b show", HANDINGS)
}

// `mps_wire::script::replay_session`, by which `mps_tool run` answers: d, who does nothing, is shown the session after
// each line of what a and c do.
#[test]
fn a_role_that_does_nothing_is_shown_what_others_do(rt: HostRuntime) -> Result<(), Fail> {
    run_shown(&rt, rt.alloc(), "d show", TWO_PAIRS)
}

// `mps_wire::script::replay_session`, by which `mps_tool run` answers: a, who sends, is shown the session after each
// line of the loop's scripts.
#[test]
fn the_sender_in_a_loop_is_shown_the_session(rt: HostRuntime) -> Result<(), Fail> {
    run_shown(&rt, rt.alloc(), "a show", LOOPS)
}

// `mps_wire::script::replay_session`, by which `mps_tool run` answers: after each line of the loop's scripts b, who
// receives, is shown what a is in the test before, since what is shown doesn't depend on who asks.
#[test]
fn the_receiver_in_a_loop_is_shown_what_the_sender_is(rt: HostRuntime) -> Result<(), Fail> {
    run_shown(&rt, rt.alloc(), "b show", LOOPS)
}

// The session with 100,000 entries: 49,999 marks and their undos, and two marks more, which are steps 50000 and 50001.
const FULL: &str = concat!(
    r#"{"history":[[50000,"a","mark","m"],[50001,"a","mark","m"]],"queues":[],"roles":["#,
    r#"{"expects":"send b int","past":[50000,50001],"role":"a","store":[]},"#,
    r#"{"expects":"recv a int","past":[],"role":"b","store":[]},"#,
    r#"{"expects":"send d int","past":[],"role":"c","store":[]},"#,
    r#"{"expects":"recv c int","past":[],"role":"d","store":[]}]}"#,
);

// What is refused then, each line for its first reason, and what is still answered.
const AT_THE_LIMIT: &[Line] = &[
    ("a mark m", "refused full", FULL),
    ("a undo 50001", "refused full", FULL),
    ("a undo 50000", "refused needed 50001", FULL),
    ("a undo 1", "refused nostep", FULL),
    ("a news 0", "news 100000", FULL),
];

// Puts a mark and its undo after the script, and their answers after these, until the journal has
// room for two entries more, and then two marks.
fn fill(alloc: Global, script: &mut String, want: &mut String) -> Result<(), AllocError> {
    for step in 1..50_000 {
        script.push_str(&format!(in alloc; "a mark m\na undo {step}\n")?)?;
        want.push_str(&format!(in alloc; "done {step}\nundone {step}\n")?)?;
    }
    script.push_str("a mark m\na mark m\n")?;
    want.push_str("done 50000\ndone 50001\n")
}

// `mps_wire::script::replay_session`, by which `mps_tool run` answers: a room with 100,000 entries refuses what it
// would accept as full, and still tells news and shows the session.
#[test]
fn a_full_session_is_still_shown(rt: HostRuntime) -> Result<(), Fail> {
    let (mut script, mut want) = (String::new(rt.alloc()), String::new(rt.alloc()));
    fill(rt.alloc(), &mut script, &mut want)?;
    let (more, answered) = both(rt.alloc(), "a show", AT_THE_LIMIT)?;
    script.push_str(more.as_str())?;
    want.push_str(answered.as_str())?;
    let found = answers(rt.alloc(), PAIRS, script.as_str())?;
    assert!(rt;
        found.as_slice() == want.as_bytes(),
        "what is answered after 100,000 entries"
    );
    Ok(())
}
