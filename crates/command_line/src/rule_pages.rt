//! The rules, each on a page of its own, as docs/RULES.md has them.

/// The name of a rule, and its page.
pub(crate) const RULES: [(&str, &str); 9] = [
    ("K1", K1),
    ("K2", K2),
    ("K3", K3),
    ("K4", K4),
    ("K5", K5),
    ("K6", K6),
    ("K7", K7),
    ("K8", K8),
    ("K9", K9),
];

const K1: &str = "\
K1: the target takes it. The target has an entry in `allow` with the form and the command. All
that may be written lies in the entry's `values`: for a register, every value that the row gives
it. A block's length lies in `length`, and the two blocks of a Block Process Call have together at
most 255 bytes. A byte for PAGE is below the target's `pages` or FFh, one for WRITE_PROTECT is
00h, 20h, 40h or 80h, and one for OPERATION turns off, 00h or 40h, or on: 80h, or at a margin 94h,
98h, A4h or A8h.

    write a VOUT_COMMAND 4505 else bad # no entry {form = \"writeword\", command = \"VOUT_COMMAND\"}

Add the entry to the board, if the target does take the command.
";

const K2: &str = "\
K2: a paged command is read at one page. Where PAGE may be FFh, all pages, no command that
depends on the page is read.

    write a PAGE 255 else bad
    read a STATUS_WORD r0 else bad        # K2: of which page?

Write the page that is meant before the read.
";

const K3: &str = "\
K3: the write isn't protected. Every value that WRITE_PROTECT may have permits the command.
00h permits all; 80h WRITE_PROTECT alone; 40h OPERATION and PAGE too; 20h ON_OFF_CONFIG and
VOUT_COMMAND as well, but no margin's voltage. CLEAR_FAULTS and QUERY are never protected.

    write a WRITE_PROTECT 0x20 else go
    go:
    write a VOUT_COMMAND 100 else bad     # K3: where the first write failed, 40h may be stored

Leave by the `else` label, or read WRITE_PROTECT back and test the register.
";

const K4: &str = "\
K4: the voltage is within its limit. The greatest value that may be written to VOUT_COMMAND,
VOUT_MARGIN_HIGH or VOUT_MARGIN_LOW is at most the limit of every rail that the write may touch,
whether or not that rail is on, or at that margin. It may touch a rail where some page that the
target may stand on selects it; FFh selects all. Voltages are compared exactly: mantissa times two
to the target's exponent, in volts, against `limit_uv`.

    write a VOUT_COMMAND 4506 else bad    # K4: 4506 / 4096 V is over 1100000 µV; 4505 / 4096 isn't
    write a VOUT_MARGIN_HIGH r0 else bad  # K4, where r0 may be 4506
";

const K5: &str = "\
K5: needs come first. Before OPERATION is written with a value that turns on, at a margin or
not, every need of every rail that the write may touch is known good. A rail becomes known good by
a read of STATUS_WORD at its page, into a register, and an `if` whose mask has bits 11 and 6
(0840h) and whose value has neither. It is no longer known good once its OPERATION is written with
00h or 40h, or its status is read again; a value that turns on, A8h for instance, withdraws
nothing.

    write a OPERATION 0 else bad
    write b OPERATION 0x80 else bad       # K5: vb needs va, which the line before may turn off
";

const K6: &str = "\
K6: facts carry over. The place to which an edge leads has a row, and that row says no more
than the edge: its sets and ranges contain the edge's, its good rails are good on the edge, and
its sources are the edge's or `none`.

A row that claims too much breaks it. So does `row N none` at a place that is reached.
";

const K7: &str = "\
K7: ticks fall. At all values of the counters, the ticks that are left at the edge are at least
those that the instruction may take, and those that are left at the next place. At `end` and `fail`
one tick is left. A message takes at most `2 + slots * (3 + S)` ticks: nine slots for each byte of
its longest frame, one for each repeated START and one for its end, S the longest stretch on the
board. `wait n` takes `n + 1`, anything else 1. `count c v` turns the coefficient of c into ticks,
for the least value that c may have before it; `again c` that jumps pays the coefficient once.

A lost arbitration is an edge of its own. Where the row's `lost` may be under the board's
`contentions`, a message has a third edge to its `else` label, as if nothing had been sent: only
`lost` is one higher, and the last coefficient of `ticks` is paid once. It takes as many ticks as
the longest frame of another controller, `2 + (9 * (1 + foreign_bytes) + 1) * (3 +
foreign_stretch)`. So a long frame is paid for as often as it can come, and not at every try. K7
holds at every number of lost arbitrations in the edge's span.

    spin:
    wait 10
    again c0 spin                         # `ticks 13 11 0 0 0 0` at spin: K7, a turn takes 12 ticks

A loop that no counter bounds can't be accepted: its ticks never fall.
";

const K8: &str = "\
K8: it starts where the board does. Place 0 has a row. It has every page and every protection
that the board's `start_pages` and `start_protects` name, no good rails, 0 in each register and
counter, no sources, and no lost arbitration, and its last coefficient is 0.
";

const K9: &str = "\
K9: it is a table for this program and board. It has as many rows, or `none`, as the program
has places. In each row pages are the target's own or FFh, and protections, rails and targets are
the board's; no range is empty, counters are at most 1000, `lost` is at most `contentions`, and the
base and the coefficients are at most 2^40.
";
