//! Laws that show that the definitions of clusters, tallies and steady fields mean what they should.
ghost use Rattle.life_census.specs.CensusLaws.{ClustersAreListed, OneListOfClusters, OneClusterEach, RowsAreCounts, RowsAscend, TalliesAddUp, SteadyFieldsEvolveByClusters, ClustersShareNoCell, SteadyIsDecided};

/// `clusters_of` lists the clusters of a set, no other list does, and each cell is in exactly one cluster. A law:
/// calling it has no effect.
pub fn laws_of_clusters()
    ensures are { ClustersAreListed }
    ensures one_list { OneListOfClusters }
    ensures one_cluster { OneClusterEach }
{}

/// The rows of a tally are the codes of its clusters, each with its count, in byte order. The counts and the
/// unresolved clusters add up to the total. A law: calling it has no effect.
pub fn laws_of_tallies()
    ensures rows { RowsAreCounts }
    ensures ascend { RowsAscend }
    ensures total { TalliesAddUp }
{}

/// Under a rule without births from nothing, the clusters of a steady field evolve independently and never share a
/// cell. `is_steady` decides if a field is steady. A law: calling it has no effect.
pub fn laws_of_steady_fields()
    ensures evolve { SteadyFieldsEvolveByClusters }
    ensures share { ClustersShareNoCell }
    ensures decided { SteadyIsDecided }
{}
