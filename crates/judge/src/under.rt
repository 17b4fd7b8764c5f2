// What stays as it is while clauses are judged under one operator.
ghost use Rattle.task.specs.Walk.{operator_in};
ghost use Rattle.judge.specs.Promise.{Given, Judged, ConsistentClosure, FlagsGuaranteed};

// The clauses, those that are judged, the operator's block, the number of atoms.
#[derive(Clone, Copy)]
pub struct Under<'a> {
    pub clauses: &'a [u16],
    pub judged: &'a [u16],
    pub block: &'a [u16],
    pub atoms: usize,
    pub ghost given: { Given atoms clauses.now block.now },
    pub ghost right: { Judged atoms judged.now },
}

// The same, with the marks of the closure of the clauses and the precondition, and the flags of the literals guaranteed by it.
#[derive(Clone, Copy)]
pub struct Closed<'a> {
    pub under: &'a Under<'a>,
    pub base: &'a [u8],
    pub guaranteed: &'a [u8],
    pub ghost closed: { ConsistentClosure under.now.atoms under.now.clauses.now (operator_in under.now.block.now).precondition base.now },
    pub ghost flagged: { FlagsGuaranteed under.now.atoms under.now.clauses.now under.now.block.now base.now guaranteed.now },
}
