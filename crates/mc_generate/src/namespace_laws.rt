//! What is so of scripts and code under a name.
ghost use Rattle.mc_generate.specs.CodesUnder.{CodesFollowScripts, RequestsDifferByKeys, ScriptsStayScripts};

/// A script is one under a name too, if no key becomes too long; its code is then its code under the name, which makes the same requests
/// but for their keys.
pub fn names_change_keys_alone()
    ensures scripts { ScriptsStayScripts }
    ensures codes { CodesFollowScripts }
    ensures requests { RequestsDifferByKeys }
{}
