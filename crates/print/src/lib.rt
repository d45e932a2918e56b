// Printing: each method writes its text behind what an output holds.
#![tactic(auto)]

ghost use Rattle.std.specs.Prelude.{◌≡◌, ◌++◌};
ghost use Rattle.book.specs.Call.{number};
ghost use Rattle.book.specs.Contract.{of_edit};
ghost use Rattle.words.specs.Text.{decimal as Text·decimal, hall_line, edit_line, unread_line, stop_line};
ghost use Rattle.print.specs.Promise.{Fits, Prints};

use book::limits::Hall;
use book::{Edited, Refusal};
use itoa::Buffer;

// The numbers behind an edit's line number: its refusal, the touched rows and the cost before.
fn told(answer: Result<Edited, Refusal>) -> (u32, u32, u32)
    ensures refusal { result.0 ≡ number (of_edit answer).refusal }
    ensures rows { result.1 ≡ (of_edit answer).rows }
    ensures before { result.2 ≡ (of_edit answer).before }
{
    match answer {
        Ok(edited) => (0, edited.rows, edited.before),
        Err(refusal) => (refusal.number(), 0, 0),
    }
}

// A lent output, the front of which is written.
#[derive(Drop)]
pub struct Output<'a> {
    pub out: &'a mut [u8],
    pub written: usize,
}

impl Output<'_> {
    // A text.
    pub fn put(&mut self, text: &[u8])
        requires { Fits text.now self.old }
        ensures { Prints text.now self.old self.new }
    {
        let end = self.written + text.len();
        self.out[self.written..end].copy_from_slice(text);
        self.written = end;
    }

    // A number.
    fn decimal(&mut self, x: u64)
        requires { Fits (Text·decimal x) self.old }
        ensures { Prints (Text·decimal x) self.old self.new }
    {
        self.put(Buffer::new().format(x).as_bytes());
    }

    // A text and a number behind it.
    fn labelled(&mut self, text: &[u8], x: u64)
        requires { Fits (text.now ++ Text·decimal x) self.old }
        ensures { Prints (text.now ++ Text·decimal x) self.old self.new }
    {
        self.put(text);
        self.decimal(x);
    }

    // The line of an unread line.
    pub fn unread_line(&mut self, i: u64)
        requires { Fits (unread_line i) self.old }
        ensures { Prints (unread_line i) self.old self.new }
    {
        self.decimal(i);
        self.put(b" unread\n");
    }

    // The line of an edit.
    pub fn edit_line(&mut self, i: u64, answer: Result<Edited, Refusal>)
        requires { Fits (edit_line i (of_edit answer)) self.old }
        ensures { Prints (edit_line i (of_edit answer)) self.old self.new }
    {
        let (refusal, rows, before) = told(answer);
        self.decimal(i);
        self.labelled(b" ", u64::from(refusal));
        self.labelled(b" ", u64::from(rows));
        self.labelled(b" ", u64::from(before));
        self.put(b"\n");
    }

    // The line of a stop.
    pub fn stop_line(&mut self, v: u64, score: u64)
        requires { Fits (stop_line v score) self.old }
        ensures { Prints (stop_line v score) self.old self.new }
    {
        self.labelled(b"stop ", v);
        self.labelled(b" score ", score);
        self.put(b"\n");
    }

    // The first line.
    pub fn hall_line(&mut self, n: u64)
        requires { Fits (hall_line n) self.old }
        ensures { Prints (hall_line n) self.old self.new }
    {
        self.labelled(b"hall ", n);
        self.labelled(b" scale ", Hall::SCALE);
        self.put(b"\n");
    }
}
