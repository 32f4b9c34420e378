// The lines of a printed monitor, put into a text one after the other.
ghost use Rattle.std.specs.Prelude.{◌≡◌};
ghost use Rattle.rule.specs.Reach.{target};
ghost use Rattle.rulefile.specs.Layout.{flat_up_to};
ghost use Rattle.printed.specs.Printing.{header, cell_of, row_lines, cell_lines, stop_line, refusal_line};
ghost use Rattle.printed.specs.Writers.{cell_end, halts_into, stop_at, page_text};
ghost use Rattle.printed.specs.Writing.{Puts};
ghost use Rattle.operations.specs.Marks.{operation_in};

use crate::text::Text;
use operations::Marks;
use reach::Moves;
use rule::{EventNo, Operation, Shape, StateNo, Told};

// The first line: class, N, K, m, initial state.
fn put_header(text: &mut Text, shape: Shape)
    ensures { Puts text.old text.new (header shape) }
{
    let initial = shape.initial;
    text.put_number(b"rule ", shape.class);
    text.put_two(shape.states, shape.events);
    text.put_two(shape.pairs, initial.0);
    text.put(b"\n");
}

// The only line of a refusal: its number and places.
pub(crate) fn put_refusal(text: &mut Text, told: Told)
    ensures { Puts text.old text.new (refusal_line told) }
{
    text.put_number(b"refused ", told.number);
    text.put_two(told.a, told.b);
    text.put(b"\n");
}

// The end of a cell: the operation's word after a space, and the end of the line. No Display has a contract that says the bytes.
fn put_operation(text: &mut Text, operation: Operation)
    ensures { Puts text.old text.new (cell_end operation) }
{
    match operation {
        Operation::Halt => text.put(b" halt\n"),
        Operation::Store => text.put(b" store\n"),
        Operation::Dump => text.put(b" dump\n"),
    }
}

// What a monitor is printed from: the shape and the moves of its rule, and the operation of a move into each state.
#[derive(Clone, Copy)]
pub(crate) struct Page<'a> {
    pub(crate) shape: Shape,
    pub(crate) moves: Moves<'a>,
    pub(crate) marks: Marks,
}

impl<'a> Page<'a> {
    // A cell: state, event, next state, operation.
    fn put_cell(self, text: &mut Text, s: StateNo, e: EventNo)
        ensures { Puts text.old text.new
            (cell_of (target self.entry.moves.table.now self.entry.moves.events) (operation_in self.entry.marks) s.0 e.0) }
    {
        let t = self.moves.next(s, e);
        text.put_number(b"", s.0);
        text.put_two(e.0, t.0);
        put_operation(text, self.marks.at(t));
    }

    // The cells of a state.
    fn put_row(self, text: &mut Text, s: StateNo)
        ensures { Puts text.old text.new
            (row_lines (target self.entry.moves.table.now self.entry.moves.events) (operation_in self.entry.marks) self.entry.moves.events s.0) }
    {
        for e in 0..self.moves.events {
            self.put_cell(text, s, EventNo(e));
        }
    }

    // The cells of all states, row by row.
    fn put_cells(self, text: &mut Text)
        ensures { Puts text.old text.new (cell_lines (target self.entry.moves.table.now self.entry.moves.events) (operation_in self.entry.marks)
            self.entry.moves.events self.entry.moves.states) }
    {
        for s in 0..self.moves.states {
            self.put_row(text, StateNo(s));
        }
    }

    // Each state into which a move halts after a space, rising.
    fn put_stops(self, text: &mut Text)
        ensures { Puts text.old text.new (flat_up_to (stop_at (halts_into self.entry.marks)) self.entry.moves.states) }
    {
        for q in 0..self.moves.states {
            if let Operation::Halt = self.marks.at(StateNo(q)) {
                text.put_number(b" ", q);
            }
        }
    }

    // The last line: the stopping states, which are those into which a move halts.
    fn put_stop_line(self, text: &mut Text)
        ensures { Puts text.old text.new (stop_line (halts_into self.entry.marks) self.entry.moves.states) }
    {
        text.put(b"stop");
        let words = text.at;
        self.put_stops(text);
        if text.at == words {
            text.put(b" -\n");
        } else {
            text.put(b"\n");
        }
    }

    // All of it.
    pub(crate) fn put(self, text: &mut Text)
        ensures { Puts text.old text.new (page_text self.entry) }
    {
        put_header(text, self.shape);
        self.put_cells(text);
        self.put_stop_line(text);
    }
}
