//! The faults, each in a sentence. docs/BUNDLES.md has their order.

/// The name of a fault, and what it says. One name may stand for several.
pub(crate) const FAULTS: [(&str, &str); 47] = [
    (
        "Memory",
        "memory ran out; nothing was judged (the exit status is 3)",
    ),
    (
        "TooLarge",
        "fault bundle 8: the input has over 16 MiB; all of it is read nevertheless",
    ),
    ("NoCommand", "fault bundle 1: the input is empty"),
    ("NotText", "fault bundle 2: the input is not UTF-8"),
    (
        "UnknownCommand",
        "fault bundle 3: the first line of the bundle is no command",
    ),
    (
        "Unexpected",
        "fault bundle 4 LINE: a header that does not come next, or text above the first header",
    ),
    (
        "MissingSection",
        "fault bundle 5 HEADER: a section of the command is not there",
    ),
    (
        "BadMessage",
        "fault bundle 6 LINE: a line of %message that is none, or a second one",
    ),
    (
        "BadAnswer",
        "fault bundle 7 LINE: a line of %answers that is none",
    ),
    (
        "BadSeed",
        "fault bundle 9 LINE: a line of %seed that is no decimal number up to 2^64 - 1, or a \
         second one",
    ),
    (
        "Toml",
        "fault board 2: the text is no TOML document; a key that stands twice in a table is one \
         cause",
    ),
    (
        "MissingKey",
        "fault board 3: a key is missing, or there is no target",
    ),
    (
        "BadAddress",
        "fault board 4: an address that no target, or no other controller, may use",
    ),
    ("SameAddress", "fault board 5: an address that stands twice"),
    (
        "SameName",
        "fault board 6: an earlier target's or rail's name, or an entry whose form and command \
         stand before",
    ),
    (
        "TooMany",
        "fault board 7: over 16 targets, over 64 rails, over 32 addresses of other controllers, \
         or `pages` other than 1 to 32",
    ),
    (
        "BadExponent",
        "fault board 8: `exponent` other than -16 to 0",
    ),
    (
        "BadRange",
        "fault board 9: `values` or `length` that is not two integers in order within its range, \
         `limit_uv` other than 1 to 4294967295, `foreign_bytes` over 255, or `contentions` over \
         1000",
    ),
    (
        "UnknownCommand",
        "fault board 10: a form's word or a command that is not known, or a command that does \
         not take the form",
    ),
    (
        "UnknownNeed",
        "fault board 11: a need that no rail has as its name",
    ),
    (
        "BadStart",
        "fault board 12: an empty list of start values, or one that can't be",
    ),
    (
        "BadStretch",
        "fault board 13: `stretch` other than 0 to 6999, or `foreign_stretch` over 4999",
    ),
    ("SelfNeed", "fault board 14: a rail that needs itself"),
    (
        "BadRail",
        "fault board 15: a target that is not there, a page that it hasn't, or a page with an \
         earlier rail",
    ),
    (
        "BadKey",
        "fault board 16: a key that no such table has, or that the form hasn't, a value of \
         another type, or a bad name",
    ),
    (
        "UnknownWord",
        "fault program 2 LINE: the first word is no instruction's, and the line is no label",
    ),
    (
        "BadNumber",
        "fault program 3 LINE: not a number, or outside the range that the instruction takes",
    ),
    (
        "UnknownTarget",
        "fault program 4 LINE: no target of the board has the name",
    ),
    (
        "UnknownCommand",
        "fault program 5 LINE: a command that is not known, or hasn't the form",
    ),
    (
        "UnknownLabel",
        "fault program 6 LINE: a jump to a label that no line has",
    ),
    (
        "SameLabel",
        "fault program 7 LINE: an earlier line has the label",
    ),
    (
        "NoEnd",
        "fault program 8 LINE: there is no instruction, the last is not `end` or `fail`, or a \
         label stands after it",
    ),
    (
        "TooLong",
        "fault program 9 LINE: 1024 instructions stand before this one",
    ),
    (
        "BadOperand",
        "fault program 10 LINE: too few or too many words, another word in the place of `else`, \
         or a register, counter, direction, block or label that is none",
    ),
    (
        "BadLine",
        "fault table 2 LINE: the first line of the table that is none",
    ),
    (
        "AnswerDoesNotFit",
        "fault run 2 INDEX: the targets can't answer so; the line below `start` has the index 0",
    ),
    (
        "AfterEnd",
        "fault run 3 INDEX: an answer after the program has ended",
    ),
    ("TooLong", "fault run 4: the run would have over 2^40 ticks"),
    (
        "BadStart",
        "fault run 5: `start` hasn't one value for each target, or one that the board doesn't name",
    ),
    (
        "BadBlock",
        "fault frame 2: a block without bytes, or with too many",
    ),
    (
        "BadData",
        "fault frame 3: data of another length than the form's, or a `refuse=` that numbers no \
         byte of the controller",
    ),
    (
        "BadPlan",
        "fault draft 2 LINE: a line of %plan that is no wish for this board, or stands a second \
         time",
    ),
    (
        "Circle",
        "fault draft 3 RAIL: rails wait for one another in a circle, and no order can place this \
         one",
    ),
    (
        "NoEntry",
        "fault draft 4 TARGET FORM COMMAND: the program would send this, and no entry of the \
         target permits it with its value",
    ),
    (
        "OverLimit",
        "fault draft 5 RAIL: the voltage that the plan wishes is over the rail's limit",
    ),
    (
        "TooLong",
        "fault draft 6: the program would have over 1024 instructions",
    ),
    (
        "NotAccepted",
        "fault draft 7 PLACE RULE: the program that was drafted is refused",
    ),
];
