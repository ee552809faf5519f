ghost use Rattle.sr_shard.specs.Shards.{JoiningUndoesDividing, ShardsHaveAHistory};

/// A law of shards: where they have kept one history, its acts replay from the world that was divided, and lead to what the
/// shards have.
pub fn shards_have_a_history()
    ensures { ShardsHaveAHistory }
{}

/// A law of shards: joining undoes dividing.
pub fn joining_undoes_dividing()
    ensures { JoiningUndoesDividing }
{}
