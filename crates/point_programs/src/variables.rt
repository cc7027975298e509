// The variables of a session.
ghost use Rattle.std.specs.Prelude.{◌≡◌, [], length, slice_get, option_map, take, IfOk, OnErr, OnOk};
ghost use Rattle.point_programs.specs.Faulty.{set_by_statement, set_names};
ghost use Rattle.point_programs.specs.Tree.{program_body, statement_of, statements};
ghost use Rattle.point_programs.specs.Variables.{MentionsVariables, is_mentioned, mention, mention_all, variable_value, with_value};

use crate::program::{Program, Stmt};
use indexmap::IndexMap;
use std::alloc::{AllocError, Global};
use std::marker::Model;
use watch_expr::Scope;

/// The variables of a session, in the order in which they were first mentioned. Contracts see them as a list
/// of names and values, None for undef.
pub struct Vars {
    values: IndexMap<Vec<u8>, Option<i64>>,
}

// By hand, so that it is proved here, and not in each crate that owns one.
impl Drop for Vars {
    fn drop(self) {
        let Self { values: _values } = self;
    }
}

impl Model for Vars {
    ghost use Rattle.std.specs.Prelude.{List};
    ghost use Rattle.point_programs.specs.Variables.{Variable};

    ghost Value = { List Variable };

    ghost use Rattle.point_programs.specs.inside.Kept.{variables_of};

    ghost view = { λ v. variables_of v.values.entries };
}

impl Vars {
    /// No variables. It takes no memory.
    pub fn new(alloc: Global) -> Vars
        ensures { result ≡ [] }
    {
        Vars {
            values: IndexMap::new(alloc),
        }
    }

    /// Gives a variable this value. Where it was not mentioned before, it comes last, and takes memory. Else only its
    /// value changes. Where there is no memory for it, nothing does.
    pub fn set(&mut self, alloc: Global, name: &[u8], value: Option<i64>) -> Result<(), AllocError>
        ensures ok { OnOk result (self.new ≡ with_value self.old name.now value) }
        ensures err { OnErr result (self.new ≡ self.old) }
    {
        if let Some(kept) = self.values.get_mut(name) {
            *kept = value;
            return Ok(());
        }
        self.values.insert(Vec::from_slice(alloc, name)?, value)?;
        Ok(())
    }

    /// Mentions the variables that the program sets, in the order of its text, unless that made more than `most`
    /// variables; then none is mentioned. Says which. Where there is no memory for them all, none is mentioned either.
    pub fn mention_all(
        &mut self,
        alloc: Global,
        p: &Program,
        most: usize,
    ) -> Result<bool, AllocError>
        ensures ok { IfOk result (λ done. MentionsVariables most self.old (set_names (program_body p.now)) self.new done) }
        ensures err { OnErr result (self.new ≡ self.old) }
    {
        let before = self.names();
        self.mention_program(alloc, p)?;
        let done = self.names() <= most;
        if !done {
            self.values.truncate(before);
        }
        Ok(done)
    }

    // Mentions the variables that the program sets; or none, where there is no memory for them all.
    fn mention_program(&mut self, alloc: Global, p: &Program) -> Result<(), AllocError>
        ensures ok { OnOk result (self.new ≡ mention_all self.old (set_names (program_body p.now))) }
        ensures err { OnErr result (self.new ≡ self.old) }
    {
        let before = self.names();
        let mentioned = mention_statements(alloc, &p.stmts, self);
        if mentioned.is_err() {
            self.values.truncate(before);
        }
        mentioned
    }

    fn mention(&mut self, alloc: Global, name: &[u8]) -> Result<(), AllocError>
        ensures ok { OnOk result (self.new ≡ mention self.old name.now) }
        ensures front { take (length self.old) self.new ≡ self.old }
    {
        if self.is_mentioned(name) {
            return Ok(());
        }
        self.set(alloc, name, None)
    }

    /// Whether the variable was mentioned or set.
    pub fn is_mentioned(&self, name: &[u8]) -> bool
        ensures { result ≡ is_mentioned self.now name.now }
    {
        self.values.contains_key(name)
    }

    /// How many variables there are.
    pub fn names(&self) -> usize
        ensures { result ≡ length self.now }
    {
        self.values.len()
    }

    /// The name and the value of the variable with this number, from 0, and None exactly after the last.
    pub fn at(&self, n: usize) -> Option<(&[u8], Option<i64>)>
        ensures { option_map (λ v. (v.0.now, v.1)) result ≡ slice_get self.now n }
    {
        let (name, value) = self.values.get_index(n)?;
        Some((name.as_slice(), *value))
    }
}

impl Scope for Vars {
    ghost variables = { variable_value };

    fn value(&self, name: &[u8]) -> Option<i64> {
        *self.values.get(name)?
    }
}

// What was mentioned before stays in front, also where there was no memory for all that is to be mentioned.
#[cycle(mention)]
fn mention_statements(alloc: Global, stmts: &[Stmt], vars: &mut Vars) -> Result<(), AllocError>
    ensures ok { OnOk result (vars.new ≡ mention_all vars.old (set_names (statements stmts.now))) }
    ensures front { take (length vars.old) vars.new ≡ vars.old }
{
    for stmt in stmts {
        mention_statement(alloc, stmt, vars)?;
    }
    Ok(())
}

#[cycle(mention)]
fn mention_statement(alloc: Global, stmt: &Stmt, vars: &mut Vars) -> Result<(), AllocError>
    ensures ok { OnOk result (vars.new ≡ mention_all vars.old (set_by_statement (statement_of stmt.now))) }
    ensures front { take (length vars.old) vars.new ≡ vars.old }
{
    match stmt {
        Stmt::Set(name, _) => vars.mention(alloc, name.as_slice()),
        Stmt::Say(_) => Ok(()),
        Stmt::Stop => Ok(()),
        Stmt::If(_, on_true, on_false) => {
            mention_statements(alloc, on_true, vars)?;
            mention_statements(alloc, on_false, vars)
        }
    }
}
