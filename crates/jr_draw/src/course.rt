ghost use Rattle.std.specs.Prelude.{◌≡◌, ◌/◌, ◌%◌, ◌≤◌, false, IfOk};
ghost use Rattle.jr_model.specs.Draws.{fresh_progress, pass_over, cells_left, direction_of, by_direction, size_at, chosen_cells};
ghost use Rattle.jr_model.specs.Draws.{draw_at, progress_after};
ghost use Rattle.jr_laws_draws.specs.DrawFacts.{part_of, DrawnCellsFit};

use crate::places::Places;
use jr_model::{Dir, Draw, IoType, Memory, Piece};
use jr_plan::{Split, SubJob, mix};
use std::alloc::Global;
use std::marker::Model;

/// The cells of a draw.
#[derive(Drop)]
pub struct DrawnCells {
    dir: Dir,
    first: u32,
    count: u32,
}

impl Model for DrawnCells {
    ghost use Rattle.jr_model.specs.Draws.{DrawnCells as DrawnCellsRecord};

    ghost Value = { DrawnCellsRecord };

    ghost view = { λ choice. record { dir = choice.dir; first = choice.first; count = choice.count } };
}

/// A pass on its way: what of the clone its draws depend on, and how far it has come.
#[derive(Drop)]
pub struct Course {
    file: u32,
    start: u64,
    cell: u32,
    cells: u32,
    io_type: IoType,
    read_percent: u8,
    read_split: Split,
    write_split: Split,
    places: Places,
    number: u32,
    reads: u32,
    writes: u32,
}

impl Model for Course {
    ghost use Rattle.jr_laws_draws.specs.DrawFacts.{CourseRecord};

    ghost Value = { CourseRecord };

    ghost use Rattle.jr_draw.specs.Courses.{course_of, IsOnCourse};

    ghost view = { course_of };

    ghost invariant = { IsOnCourse };
}

impl Course {
    /// The start of a pass of this clone.
    pub fn new(alloc: Global, job: &SubJob) -> Result<Course, Memory>
        ensures job { IfOk result (λ course. course.job ≡ part_of job.now) }
        ensures done { IfOk result (λ course. course.done ≡ fresh_progress job.now) }
    {
        job.facts();
        let places = Places::new(alloc, job.io_type(), job.has_map(), job.cells())?;
        Ok(Course {
            file: job.file(),
            start: job.start(),
            cell: job.cell(),
            cells: job.cells(),
            io_type: job.io_type(),
            read_percent: job.read_percent(),
            read_split: *job.read_split(),
            write_split: *job.write_split(),
            places,
            number: 0,
            reads: 0,
            writes: 0,
        })
    }

    /// Whether all cells are drawn.
    pub fn is_over(&self) -> bool
        ensures { result ≡ pass_over self.now.job self.now.done }
    {
        self.places.are_drawn(self.left())
    }

    /// The next draw, by its four words.
    pub fn draw(&mut self, direction: u64, size: u64, place: u64, seed: u64) -> Draw
        requires { pass_over self.old.job self.old.done ≡ false }
        ensures drawn { result ≡ draw_at self.old.job self.old.done
            (chosen_cells self.old.job self.old.done direction size place) seed }
        ensures job { self.new.job ≡ self.old.job }
        ensures done { self.new.done ≡ progress_after self.old.done
            (chosen_cells self.old.job self.old.done direction size place) }
    {
        let choice = self.choose(direction, size, place);
        let draw = self.draw_at(&choice, seed);
        self.advance(&choice);
        draw
    }

    // The cells still to be drawn.
    fn left(&self) -> u32
        ensures { result ≡ cells_left self.now.job self.now.done }
    {
        self.cells - (self.reads + self.writes)
    }

    // The cells that this direction drew.
    fn drawn(&self, dir: Dir) -> u32
        ensures { result ≡ by_direction dir self.now.done.reads self.now.done.writes }
    {
        match dir {
            Dir::Read => self.reads,
            Dir::Write => self.writes,
        }
    }

    // The direction that a word gives.
    fn direction(&self, word: u64) -> Dir
        ensures { result
            ≡ direction_of self.now.job.io_type self.now.job.read_percent (word % 100) }
    {
        match self.io_type {
            IoType::Read | IoType::RandRead => Dir::Read,
            IoType::Write | IoType::RandWrite => Dir::Write,
            IoType::ReadWrite | IoType::RandRw => { mix((word % 100) as u8, self.read_percent) }
        }
    }

    // How many cells a draw of this direction wants, by its size word.
    fn wanted(&self, dir: Dir, word: u64) -> u32
        ensures { let split = by_direction dir self.now.job.read_split self.now.job.write_split in
            result ≡ size_at split (word % 100) / self.now.job.cell }
    {
        let split = match dir {
            Dir::Read => &self.read_split,
            Dir::Write => &self.write_split,
        };
        split.size_of((word % 100) as u8) / self.cell
    }

    // The cells that a draw takes.
    fn choose(&self, direction: u64, size: u64, place: u64) -> DrawnCells
        requires { pass_over self.now.job self.now.done ≡ false }
        ensures cells { result ≡ chosen_cells self.now.job self.now.done direction size place }
        ensures fits { DrawnCellsFit self.now.job self.now.done result }
    {
        let dir = self.direction(direction);
        let want = self.wanted(dir, size);
        let (first, count) = self
            .places
            .choose(self.cells, self.drawn(dir), self.left(), want, place);
        DrawnCells { dir, first, count }
    }

    // The draw of these cells.
    fn draw_at(&self, choice: &DrawnCells, seed: u64) -> Draw
        requires { DrawnCellsFit self.now.job self.now.done choice.now }
        ensures { result ≡ draw_at self.now.job self.now.done choice.now seed }
    {
        Draw {
            number: self.number,
            dir: choice.dir,
            piece: Piece {
                file: self.file,
                offset: self.start + u64::from(choice.first) * u64::from(self.cell),
                len: choice.count * self.cell,
            },
            seed,
        }
    }

    // Goes on past the draw of these cells.
    fn advance(&mut self, choice: &DrawnCells)
        requires { DrawnCellsFit self.old.job self.old.done choice.now }
        ensures job { self.new.job ≡ self.old.job }
        ensures done { self.new.done ≡ progress_after self.old.done choice.now }
    {
        self.places.take(choice.first, choice.count);
        match choice.dir {
            Dir::Read => self.reads += choice.count,
            Dir::Write => self.writes += choice.count,
        }
        self.number += 1;
    }
}
