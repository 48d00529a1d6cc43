// A line of the table: what was done, and what the drive then shows.
use drive::{Command, Fault, Link};
use std::fmt;

#[derive(Clone, Copy)]
pub struct Row<'a> {
    pub tick: u32,
    pub step: &'a str,
    pub answer: &'a str,
    pub command: Command,
    pub speed: i32,
    pub fault: Option<Fault>,
    pub link: Link,
}

impl fmt::Display for Row<'_> {
    fn fmt<W: fmt::Write>(&self, f: &mut fmt::Formatter<W>) -> fmt::Result {
        let (tick, step, answer) = (self.tick, self.step, self.answer);
        let (command, target) = (self.command, self.command.target().value());
        let fault = self.fault.map_or(0, u16::from);
        let (speed, link) = (self.speed, self.link);
        write!(
            f,
            "{tick:>4}  {step:<20}  {answer:<9}  {command:<10}  {target:>6}  {speed:>6}  {fault:>5}  {link}"
        )
    }
}
