//! The examples: the file that holds what is printed, and the words that print it.

/// What the words print, to the byte. Beside what it posts to itself, each actor of these scripts gets its messages
/// from one source alone, or from the second only after all of the first, so there is one log. The desk of `load` gets
/// them from four, and the summary counts them alone. A plan is a script, and its own plan.
pub const PRINTED: &[(&str, &[&str])] = &[
    ("guide/01.refused", &["check", "guide/01.join"]),
    ("guide/02.plan", &["check", "guide/02.join"]),
    ("guide/03.plan", &["check", "guide/03.join"]),
    ("guide/04.log", &["run", "guide/04.join", "guide/04.feed"]),
    ("guide/05.log", &["run", "guide/05.join", "guide/05.feed"]),
    ("guide/06.log", &["run", "guide/06.join", "guide/06.feed"]),
    ("guide/07.refused", &["check", "guide/07.join"]),
    ("guide/08.log", &["run", "guide/08.join", "guide/08.feed"]),
    ("guide/09.log", &["run", "guide/09.join", "guide/09.feed"]),
    ("guide/10.log", &["run", "guide/10.join", "guide/10.feed"]),
    ("guide/11.log", &["run", "guide/11.join", "guide/11.feed"]),
    ("alarm.log", &["run", "alarm.join", "alarm.feed"]),
    (
        "bounded_buffer.log",
        &["run", "bounded_buffer.join", "bounded_buffer.feed"],
    ),
    ("boxes.log", &["run", "boxes.join", "boxes.feed"]),
    (
        "dark_room.log",
        &["run", "dark_room.join", "dark_room.feed"],
    ),
    (
        "disagreement.log",
        &["run", "disagreement.join", "disagreement.feed"],
    ),
    (
        "door_alarm.log",
        &["run", "door_alarm.join", "door_alarm.feed"],
    ),
    (
        "forgotten_window.log",
        &["run", "forgotten_window.join", "forgotten_window.feed"],
    ),
    (
        "hand_over.log",
        &["run", "hand_over.join", "hand_over.feed"],
    ),
    (
        "older_first.log",
        &["run", "older_first.join", "older_first.feed"],
    ),
    ("pallets.log", &["run", "pallets.join", "pallets.feed"]),
    (
        "rate_alarm.log",
        &["run", "rate_alarm.join", "rate_alarm.feed"],
    ),
    (
        "ticket_desk.log",
        &["run", "ticket_desk.join", "ticket_desk.feed"],
    ),
    (
        "two_persons.log",
        &["run", "two_persons.join", "two_persons.feed"],
    ),
    ("workers.log", &["run", "workers.join", "workers.feed"]),
    (
        "three_mistakes.log",
        &["run", "three_mistakes.join", "three_mistakes.feed"],
    ),
    (
        "numbered_tickets.answers",
        &["ask", "numbered_tickets.join", "numbered_tickets.feed"],
    ),
    ("prices.answers", &["ask", "prices.join", "prices.feed"]),
    ("workers.answers", &["ask", "workers.join", "workers.feed"]),
    ("findings.lint", &["lint", "findings.join"]),
    ("load.summary", &["load", "3"]),
    (
        "language/light.log",
        &["run", "language/light.join", "language/light.feed"],
    ),
    (
        "language/time_out.log",
        &["run", "language/time_out.join", "language/time_out.feed"],
    ),
    ("language/layout.plan", &["check", "language/layout.join"]),
    ("language/layout.plan", &["check", "language/layout.plan"]),
    (
        "language/shadowed.lint",
        &["lint", "language/shadowed.join"],
    ),
    (
        "language/quotes.log",
        &["run", "language/quotes.join", "language/quotes.feed"],
    ),
    (
        "language/seven.log",
        &["run", "language/seven.join", "language/seven.feed"],
    ),
];

/// Each log of the examples, with its script: a replay accepts it.
pub const ACCEPTED: &[(&str, &str)] = &[
    ("guide/04.join", "guide/04.log"),
    ("guide/05.join", "guide/05.log"),
    ("guide/06.join", "guide/06.log"),
    ("guide/08.join", "guide/08.log"),
    ("guide/09.join", "guide/09.log"),
    ("guide/10.join", "guide/10.log"),
    ("guide/11.join", "guide/11.log"),
    ("alarm.join", "alarm.log"),
    ("boxes.join", "boxes.log"),
    ("disagreement.join", "disagreement.log"),
    ("door_alarm.join", "door_alarm.log"),
    ("hand_over.join", "hand_over.log"),
    ("older_first.join", "older_first.log"),
    ("pallets.join", "pallets.log"),
    ("rate_alarm.join", "rate_alarm.log"),
    ("ticket_desk.join", "ticket_desk.log"),
    ("two_persons.join", "two_persons.log"),
    ("workers.join", "workers.log"),
    ("three_mistakes.join", "three_mistakes.log"),
    ("door_alarm.join", "door_alarm_changed.log"),
    ("bounded_buffer.join", "bounded_buffer.log"),
    ("dark_room.join", "dark_room.log"),
    ("forgotten_window.join", "forgotten_window.log"),
    ("language/light.join", "language/light.log"),
    ("language/time_out.join", "language/time_out.log"),
    ("language/quotes.join", "language/quotes.log"),
    ("language/seven.join", "language/seven.log"),
];
