//! A table of the shapes of clusters. Translated copies share a shape, whose code is computed only once.
ghost use Rattle.std.specs.Prelude.{◌≡◌, ℕ, ◌≤◌, ◌++◌, ◌∷◌, [], IfOk, IfSome, IsTrue, OnOk, OnErr, MatchOption};
ghost use Rattle.life_core.specs.Pattern.{IsWithin};
ghost use Rattle.life_code.specs.Codes.{code_of};
ghost use Rattle.life_code.specs.Period.{kind_of, IsSearchable, IsKindOf};
ghost use Rattle.life_census.specs.Steady.{Stays, is_staying};
ghost use Rattle.life_census.specs.SurveyState.{phases_of, ArePhases, IsShape, IsSurvey, HasShapeAt, HasCodeAt};

use crate::code_text::CodeText;
use life_code::{Kind, PERIOD_LIMIT, code_of_kind, kind};
use life_core::{Cell, CellList, Fault, PackedRows, Pattern, Plane, Rule, is_packed, list_runs};
use std::alloc::{AllocError, Allocator};

/// A shape: its first cluster, the code if it has one, and the cells of all phases, if they were requested and the
/// cluster stays in place.
#[derive(Drop)]
pub struct Shape<A: Allocator> {
    pub cluster: Pattern<A>,
    pub code: Option<CodeText<A>>,
    pub phases: Option<Vec<Cell, A>>,
}

/// The question that is the same for all clusters: the code under this rule and limit on the period.
#[derive(Clone, Copy)]
pub struct Search<A: Allocator> {
    pub alloc: A,
    pub rule: Rule,
    pub limit: u32,
}

impl<A: Allocator + Copy> Search<A> {
    pub fn new(alloc: A, rule: &Rule, limit: u32) -> Search<A>
        ensures rule { result.rule ≡ rule.now }
        ensures limit { result.limit ≡ limit }
    {
        Search {
            alloc,
            rule: *rule,
            limit,
        }
    }

    /// The index of a cluster's shape, and the translation from the first cluster of this shape to it. A new shape is
    /// added at the end. Only if `listed` are its phases stored.
    pub fn shape_index(
        &self,
        cluster: &Pattern<A>,
        listed: bool,
        shapes: &mut Vec<Shape<A>, A>,
    ) -> Result<(usize, Cell), Fault>
        requires room { IsWithin 400_000_000 cluster.now }
        requires survey { IsSurvey self.now.rule self.now.limit listed shapes.old.items }
        ensures survey { IsSurvey self.now.rule self.now.limit listed shapes.new.items }
        ensures index { IfOk result (λ p. HasShapeAt shapes.new.items cluster.now p.0 p.1) }
        ensures code { IfOk result (λ p. HasCodeAt shapes.new.items (code_of self.now.rule cluster.now self.now.limit) p.0) }
    {
        if let Some(index) = known_index(shapes, cluster) {
            return Ok(index);
        }
        let shape = self.surveyed(cluster, listed)?;
        let i = shapes.len();
        add_shape(shapes, shape)?;
        Ok((i, Cell { row: 0, column: 0 }))
    }

    /// Computes the kind only once, for both the code and the phases.
    fn surveyed(&self, cluster: &Pattern<A>, listed: bool) -> Result<Shape<A>, Fault>
        requires { IsSearchable self.now.limit cluster.now }
        ensures cluster { IfOk result (λ s. s.cluster ≡ cluster.now) }
        ensures shape { IfOk result (IsShape self.now.rule self.now.limit listed) }
    {
        let kind = kind(self.alloc, &self.rule, cluster, self.limit)?;
        Ok(Shape {
            cluster: cluster.copy(self.alloc)?,
            code: self.code_of(cluster, kind)?,
            phases: self.listed_phases(cluster, kind, listed)?,
        })
    }

    /// The code, if there is one. The caller knows the kind.
    pub fn code_of(&self, cluster: &Pattern<A>, kind: Kind) -> Result<Option<CodeText<A>>, Fault>
        requires { IsKindOf self.now.rule cluster.now self.now.limit kind }
        ensures { IfOk result (λ o. o ≡ code_of self.now.rule cluster.now self.now.limit) }
    {
        match code_of_kind(self.alloc, &self.rule, cluster, self.limit, kind)? {
            Some(coded) => Ok(Some(CodeText::from_slice(self.alloc, coded.text())?)),
            None => Ok(None),
        }
    }

    /// `None` if `listed` is false, or if the cluster moves or is unresolved.
    fn listed_phases(
        &self,
        cluster: &Pattern<A>,
        kind: Kind,
        listed: bool,
    ) -> Result<Option<Vec<Cell, A>>, Fault>
        requires { IsKindOf self.now.rule cluster.now self.now.limit kind }
        ensures { IfOk result (λ o. IsTrue listed → MatchOption o (Stays self.now.rule self.now.limit cluster.now → ⊥) (λ v. ArePhases self.now.rule self.now.limit cluster.now v.items)) }
    {
        if !listed {
            return Ok(None);
        }
        match kind {
            Kind::Still => Ok(Some(self.phases(cluster, 1)?)),
            Kind::Oscillator(period) => Ok(Some(self.phases(cluster, period)?)),
            Kind::Empty | Kind::Ship(..) | Kind::Unresolved => Ok(None),
        }
    }

    /// A cell that is live in several phases is listed several times.
    fn phases(&self, cluster: &Pattern<A>, period: u32) -> Result<Vec<Cell, A>, Fault>
        requires few { period ≤ PERIOD_LIMIT }
        requires room { IsWithin 400_000_000 cluster.now }
        ensures { IfOk result (λ v. v.items ≡ phases_of self.now.rule cluster.now period) }
    {
        if is_packed(cluster.bounds(), period) {
            self.phases_by::<PackedRows<A>>(cluster, period)
        } else {
            self.phases_by::<CellList<A>>(cluster, period)
        }
    }

    /// Steps one plane, phase by phase.
    fn phases_by<P: Plane<A>>(
        &self,
        cluster: &Pattern<A>,
        period: u32,
    ) -> Result<Vec<Cell, A>, Fault>
        requires few { period ≤ PERIOD_LIMIT }
        requires room { IsWithin 400_000_000 cluster.now }
        ensures { IfOk result (λ v. v.items ≡ phases_of self.now.rule cluster.now period) }
    {
        let mut cells = Vec::new(self.alloc);
        let mut plane = P::from_pattern(self.alloc, cluster)?;
        for _i in 0..period {
            list_runs(&mut cells, plane.to_pattern(self.alloc)?.cells().runs())?;
            plane.step(&self.rule)?;
        }
        Ok(cells)
    }
}

/// Compares the cluster with each known shape in turn.
fn known_index<A: Allocator + Copy>(
    shapes: &[Shape<A>],
    cluster: &Pattern<A>,
) -> Option<(usize, Cell)>
    ensures { IfSome result (λ p. HasShapeAt shapes.now cluster.now p.0 p.1) }
{
    for (i, shape) in shapes.iter().enumerate() {
        if let Some((column, row)) = shape.cluster.shift_to(cluster) {
            return Some((i, Cell { row, column }));
        }
    }
    None
}

fn add_shape<A: Allocator>(shapes: &mut Vec<Shape<A>, A>, shape: Shape<A>) -> Result<(), AllocError>
    ensures added { OnOk result (shapes.new.items ≡ shapes.old.items ++ shape ∷ []) }
    ensures kept { OnErr result (shapes.new.items ≡ shapes.old.items) }
{
    shapes.push(shape)?;
    Ok(())
}

/// Still lifes and oscillators do.
pub fn stays_in_place(kind: Kind) -> bool
    ensures { result ≡ is_staying kind }
{
    matches!(kind, Kind::Still | Kind::Oscillator(_))
}
