// The points that a session holds.
ghost use Rattle.std.specs.Prelude.{◌≡◌, ◌<◌, ◌++◌, ◌∷◌, [], IfOk, IfSome, OnErr, OnOk, length};
ghost use Rattle.std.specs.List.{flat_map};
ghost use Rattle.point_programs.specs.Tree.{program_body};
ghost use Rattle.shell_points.specs.Points.{has_point, new_point, index_of_point, point_text, with_program, without_point};
ghost use Rattle.shell_points.specs.Meanings.{held_condition as condition_meant, trigger as trigger_meant};
ghost use Rattle.shell_points.specs.inside.Meanings.{point as point_meant};

use crate::point::{Point, Trigger};
use fri_bytes::Bytes;
use fri_text::Text;
use point_programs::Program;
use std::alloc::{AllocError, Global};
use std::marker::Model;
use watch_expr::Expr;

/// The points that a session holds. Contracts see them as a list, in the order in which they were added.
pub struct Points {
    pub(crate) held: Vec<Point>,
}

// By hand, so that it is proved here, and not in each crate that owns one.
impl Drop for Points {
    fn drop(self) {
        let Self { held: _held } = self;
    }
}

impl Model for Points {
    ghost use Rattle.std.specs.Prelude.{List};
    ghost use Rattle.std.specs.Coded.{codes};
    ghost use Rattle.expression_text.specs.Coding.{expression_code};
    ghost use Rattle.point_programs.specs.Coding.{statements_code};
    ghost use Rattle.shell_points.specs.Points.{Point};

    ghost Value = { List Point };

    ghost coded = { Prim.hlevel (codes, expression_code, statements_code) };

    ghost use Rattle.std.specs.Prelude.{map};
    ghost use Rattle.shell_points.specs.inside.Meanings.{point};
    ghost use Rattle.shell_points.specs.declared.point.Point.{Point as Held};

    ghost view = { λ p. map {A = Held} point p.held.items };
}

impl Points {
    /// No points. It takes no memory.
    pub fn new(alloc: Global) -> Points
        ensures { result ≡ [] }
    {
        Points {
            held: Vec::new(alloc),
        }
    }

    /// How many points there are.
    pub fn count(&self) -> usize
        ensures { result ≡ length self.now }
    {
        self.held.len()
    }

    /// A point more, which this line makes, with this number and without a program. After want of memory there is
    /// none more.
    pub fn add(
        &mut self,
        alloc: Global,
        number: u64,
        line: &[u8],
        trigger: Trigger,
        condition: Option<Expr>,
    ) -> Result<(), AllocError>
        ensures ok { OnOk result (self.new ≡ self.old ++ new_point number line.now (trigger_meant trigger) (condition_meant condition) ∷ []) }
        ensures err { OnErr result (self.new ≡ self.old) }
    {
        let text = Bytes::from_slice(alloc, line)?;
        self.held.push(Point {
            number,
            text,
            trigger,
            condition,
            program: None,
        })?;
        Ok(())
    }

    /// Whether a point has this number.
    pub fn is_held(&self, number: u64) -> bool
        ensures { result ≡ has_point self.now number }
    {
        self.held.iter().any(|point| point.number == number)
    }

    /// Takes away all points with this number.
    pub fn remove(&mut self, number: u64)
        ensures { self.new ≡ without_point self.old number }
    {
        self.held.retain(|point| point.number != number);
    }

    /// Where the first point with this number stands.
    pub fn index_of(&self, number: u64) -> Option<usize>
        ensures index { result ≡ index_of_point self.now number }
        ensures within { IfSome result (λ index. index < length self.now) }
    {
        self.held.iter().position(|point| point.number == number)
    }

    /// Attaches a program to the point at this index, in place of an older one.
    pub fn attach(&mut self, index: usize, program: Program)
        requires { index < length self.old }
        ensures { self.new ≡ with_program self.old index (program_body program) }
    {
        self.held[index].program = Some(program);
    }

    /// The number of each point, and the line that made it.
    pub fn list(&self, alloc: Global) -> Result<Text, AllocError>
        ensures { IfOk result (λ text. text ≡ flat_map point_text self.now) }
    {
        let mut text = Text::new(alloc);
        for point in &self.held {
            push_point(&mut text, point)?;
        }
        Ok(text)
    }
}

fn push_point(text: &mut Text, point: &Point) -> Result<(), AllocError>
    ensures { OnOk result (text.new ≡ text.old ++ point_text (point_meant point.now)) }
{
    text.push_u64(point.number)?;
    text.push_str(" ")?;
    text.push_bytes(point.text.as_slice())?;
    text.push_str("\n")
}
