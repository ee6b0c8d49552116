//! Imports 1 to 3, 6 to 10 and 51: the wrapper, the miniport and an adapter's attributes; its
//! parameters and its resources. (Windows DDK, ndis.h: NdisInitializeWrapper, NdisTerminateWrapper,
//! NdisMRegisterMiniport, NdisMSetAttributesEx, NdisOpenConfiguration, NdisReadConfiguration,
//! NdisCloseConfiguration, NdisReadNetworkAddress, NdisMQueryAdapterResources.)
#![tactic(auto)]

mod blocks;
mod characteristics;
mod configuration;
mod given;
mod keywords;
mod registration;
mod resource_list;
mod station_address;
mod values;

pub use configuration::{
    close_configuration, open_configuration, query_resources, read_configuration,
    read_network_address,
};
pub use registration::{initialize_wrapper, register_miniport, set_attributes, terminate_wrapper};
