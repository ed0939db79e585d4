//! What holds of servers and the bag of units.

ghost use Rattle.server_law.specs.Legal.{ActsAreLegal, ServersStay};
ghost use Rattle.server_law.specs.Rest.{NoneIsPromised, OneHasAll, RestIsSettled};

/// The entries of an act that is sure are steps of the bag that agrees with the server, if it has what the act needs. The bag
/// agrees with the server afterwards (`ActsAreLegal`). A step of the bag leaves its agreement with each server that is not the
/// entry's keeper (`ServersStay`). In a run of one server the bag is all at that server (`OneHasAll`), and nothing is promised
/// if the server promised nothing (`NoneIsPromised`). A bag that rests at a server is settled (`RestIsSettled`), so that all
/// work may be found used up.
pub fn agreement_laws()
    ensures acts_are_legal { ActsAreLegal }
    ensures servers_stay { ServersStay }
    ensures one_has_all { OneHasAll }
    ensures none_is_promised { NoneIsPromised }
    ensures rest_is_settled { RestIsSettled }
{}
