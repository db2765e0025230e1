//! What taking and giving back say together. These functions do nothing: their contracts are the laws.
ghost use Rattle.nas_pools.specs.PoolLaws.{EmptyIsFull, GivesOne, GivesTaken, GivingUndoes, PoolOfTwo, PoolsStay, TakenAreDistinct, TakesFree, TakesLeast, TakesOne};

/// What is taken was free.
pub fn takes_free()
    ensures { TakesFree }
{}

/// What is taken is the least that was free: each address of its family before it is taken.
pub fn takes_least()
    ensures { TakesLeast }
{}

/// What is taken is taken afterwards, and all other addresses are as before.
pub fn takes_one()
    ensures { TakesOne }
{}

/// What is given back is free afterwards, and all other addresses are as before.
pub fn gives_one()
    ensures { GivesOne }
{}

/// An address is given back exactly where each part of it is taken.
pub fn gives_taken()
    ensures { GivesTaken }
{}

/// Two addresses that are taken at one time have no part in common.
pub fn taken_are_distinct()
    ensures { TakenAreDistinct }
{}

/// Giving back what was taken undoes the taking.
pub fn giving_undoes()
    ensures { GivingUndoes }
{}

/// Nothing is taken exactly where a family that the kind names is full.
pub fn empty_is_full()
    ensures { EmptyIsFull }
{}

/// Pools stay pools.
pub fn pools_stay()
    ensures { PoolsStay }
{}

/// A pool of two addresses, taken until it is empty and given back.
pub fn pool_of_two()
    ensures { PoolOfTwo }
{}
