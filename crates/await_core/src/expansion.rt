use plain_list::Sequence;

/// What an expansion or a resumption answers.
#[derive(Drop)]
pub enum Expansion<N, L, R> {
    Leaf(L),
    Fork(Sequence<N>),
    Await(Sequence<N>, R),
}
