ghost use Rattle.gfx_script.specs.Building.{AcceptedScriptsAreBuilt};
ghost use Rattle.gfx_script.specs.Heads.{ChosenAreOffers};

/// Whatever script is accepted that starts with nothing, a builder that is given its head, its pictures, its steps and
/// its turns refuses nothing and gives it.
pub fn accepted_scripts_are_built()
    ensures { AcceptedScriptsAreBuilt }
{}

/// Whatever version a server chooses of what a client says is one that `Head::for_client` may be given.
pub fn chosen_versions_are_offers()
    ensures { ChosenAreOffers }
{}
