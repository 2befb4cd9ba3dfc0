//! The vectors that come before all work: the given ones, the random ones and the weighted ones.
ghost use Rattle.std.specs.Prelude.{◌≡◌, [], IfOk, OnErr};
ghost use Rattle.ht_engine.specs.FirstVectors.{DrawsNext, first_of, rest_of};

use crate::settings::Settings;
use ht_net::Vectors;
use ht_random::{WeightedVectors, Words};
use std::alloc::{AllocError, Global};
use std::marker::Model;

/// The first vectors of some settings, one after the other. None is kept: each is drawn as it comes.
#[derive(Drop)]
pub struct FirstVectors<'s> {
    settings: &'s Settings,
    // how many bits a vector has
    width: u32,
    // how many of the given vectors came
    given: u64,
    // how many of the random vectors came, and the words of those to come
    random: u32,
    words: Words,
    // how many of the weighted vectors came, and those to come
    weighted: u32,
    bursts: WeightedVectors,
}

impl<'s> Model for FirstVectors<'s> {
    ghost use Rattle.ht_engine.specs.FirstVectors.{FirstView};

    ghost Value = { FirstView };

    ghost use Rattle.ht_engine.specs.FirstVectorsOf.{first_of_fields, AreFirstFields};

    ghost view = { first_of_fields };

    ghost invariant = { AreFirstFields };
}

impl<'s> FirstVectors<'s> {
    /// All first vectors of some settings, of `width` bits each.
    ///
    /// # Errors
    /// Out of memory.
    pub fn new(
        alloc: Global,
        width: u32,
        settings: &'s Settings,
    ) -> Result<FirstVectors<'s>, AllocError>
        requires { settings.now.first.width ≡ width }
        ensures width { IfOk result (λ first. first.width ≡ width) }
        ensures rest { IfOk result (λ first. rest_of first ≡ first_of width settings.now) }
    {
        Ok(FirstVectors {
            settings,
            width,
            given: 0,
            random: 0,
            words: Words::from_seed(settings.seed),
            weighted: 0,
            bursts: WeightedVectors::new(alloc, width, settings.seed)?,
        })
    }

    // The next of the given vectors, or none where all came.
    fn next_given(&mut self, alloc: Global) -> Result<Option<Vec<bool>>, AllocError>
        ensures next { IfOk result (DrawsNext self.old.given self.old self.new) }
        ensures same { OnErr result (self.new ≡ self.old) }
    {
        if self.given >= self.settings.first.len() {
            return Ok(None);
        }
        let vector = Vec::from_slice(alloc, self.settings.first.get(self.given))?;
        self.given += 1;
        Ok(Some(vector))
    }

    // The next of the random vectors, or none where all came: they come after the given ones.
    fn next_random(&mut self, alloc: Global) -> Result<Option<Vec<bool>>, AllocError>
        requires { self.old.given ≡ [] }
        ensures next { IfOk result (DrawsNext self.old.random self.old self.new) }
        ensures same { OnErr result (self.new ≡ self.old) }
    {
        if self.random >= self.settings.random {
            return Ok(None);
        }
        let vector = self.words.vector(alloc, self.width)?;
        self.random += 1;
        Ok(Some(vector))
    }

    // The next of the weighted vectors, or none where all came: they come after the random ones.
    fn next_weighted(&mut self, alloc: Global) -> Result<Option<Vec<bool>>, AllocError>
        requires given { self.old.given ≡ [] }
        requires random { self.old.random ≡ [] }
        ensures next { IfOk result (DrawsNext self.old.weighted self.old self.new) }
        ensures same { OnErr result (self.new ≡ self.old) }
    {
        if self.weighted >= self.settings.weighted {
            return Ok(None);
        }
        let vector = self.bursts.next(alloc)?;
        self.weighted += 1;
        Ok(Some(vector))
    }

    /// The next vector, or none where all came.
    ///
    /// # Errors
    /// Out of memory; no vector is drawn.
    pub fn next(&mut self, alloc: Global) -> Result<Option<Vec<bool>>, AllocError>
        ensures next { IfOk result (DrawsNext (rest_of self.old) self.old self.new) }
        ensures same { OnErr result (self.new ≡ self.old) }
    {
        if let Some(vector) = self.next_given(alloc)? {
            return Ok(Some(vector));
        }
        if let Some(vector) = self.next_random(alloc)? {
            return Ok(Some(vector));
        }
        self.next_weighted(alloc)
    }
}

/// All first vectors of some settings as one list, of `width` bits each.
///
/// # Errors
/// Out of memory.
pub fn first_list(alloc: Global, width: u32, settings: &Settings) -> Result<Vectors, AllocError>
    requires { settings.now.first.width ≡ width }
    ensures { IfOk result
        (λ list. list ≡ record { width = width; list = first_of width settings.now }) }
{
    let mut first = FirstVectors::new(alloc, width, settings)?;
    let mut list = Vectors::new(alloc, width);
    'vectors: while let Some(vector) = first.next(alloc)? {
        list.push(&vector)?;
    }
    Ok(list)
}
