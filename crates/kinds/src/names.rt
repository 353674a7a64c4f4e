// Names of what stands in a buffer. What is read of each is a view, and what verifies each is its walk.
use std::marker::PhantomData;

// An offset that leads forwards to a `T`.
pub struct ForwardsUOffset<T>(PhantomData<T>);

// A `T` behind a size prefix, which is not read.
pub struct SkipSizePrefix<T>(PhantomData<T>);

// A vector of `T`.
pub struct VectorOf<T>(PhantomData<T>);

// A string.
pub struct Str;
